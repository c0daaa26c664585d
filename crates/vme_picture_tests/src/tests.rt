use crate::account_tests::account_of;
use std::test::Fail;
use vcd_read::{Variables, read_definitions};
use vme_explain::Subject;
use vme_picture::{Attribute, Attributes, Markup, Tag, is_picture, picture};
use vme_trace::{Break, Line, Rule, Verdict};

#[test]
fn names_are_escaped_and_elements_are_closed(rt: HostRuntime) -> Result<(), Fail> {
    let mut inner = Markup::new(rt.alloc());
    inner.push_characters(rt.alloc(), b"a<b>&\"c\"\x1B")?;
    inner.push_end_of_line()?;
    let mut attributes = Attributes::new(rt.alloc());
    attributes.push(rt.alloc(), Attribute::Fill, b"\"><x")?;
    attributes.push_number(rt.alloc(), Attribute::X, 12)?;
    let mut markup = Markup::new(rt.alloc());
    markup.push_element(rt.alloc(), Tag::Text, &attributes, &inner)?;
    markup.push_element(
        rt.alloc(),
        Tag::Path,
        &Attributes::new(rt.alloc()),
        &Markup::new(rt.alloc()),
    )?;
    let wanted =
        b"<text fill=\"&quot;&gt;&lt;x\" x=\"12\">a&lt;b&gt;&amp;&quot;c&quot;\\x1B\n</text><path></path>";
    assert_eq!(rt; markup.as_bytes(), wanted.as_slice());
    Ok(())
}

/// The definitions of a dump with a name that would be markup if it weren't escaped.
const DEFINITIONS: &str =
    "$timescale 10 ns $end\n$scope module b $end\n$var wire 1 p <AS>&\"1\" $end\n\
$upscope $end\n$enddefinitions $end\n";

#[test]
fn a_break_is_drawn(rt: HostRuntime) -> Result<(), Fail> {
    let definitions = read_definitions(
        rt.alloc(),
        DEFINITIONS.as_bytes(),
        Variables::new(rt.alloc()),
    );
    let opening = "AS=1 DS0=1 DS1=1 DTACK=1 BERR=1";
    let account = account_of(rt.alloc(), opening, 0, "BBSY=1;AS=0;AS=1").ok_or("no account")?;
    let Ok((_, variables)) = definitions else {
        return Err(Fail::from("no definitions"));
    };
    let verdict = Verdict::Broken(Break {
        rule: Rule::B3,
        instant: 2,
        time: 10,
        line: Line::AS,
    });
    let subject = Subject {
        account: &account,
        verdict: &verdict,
        binding: b"slots 1\nAS = b.<AS>&\"1\"\n",
        variables: variables.as_slice(),
        time_unit: 10,
        time_scale: b"10ns",
    };
    let drawn = picture(
        rt.alloc(),
        &subject,
        b"broken B3 at instant 2 time 10 line AS\n",
    )?;
    assert!(rt; is_picture(drawn.as_bytes()));
    assert!(rt; !is_picture(b"<?xml version=\"1.0\"?>\n<svg>"));
    let text = str::from_utf8(drawn.as_bytes()).unwrap_or("");
    for part in [
        "<!-- written by vmecheck explain -->\n<svg xmlns=\"http://www.w3.org/2000/svg\" width=\"160mm\" ",
        "<title>broken B3 at instant 2 time 10 line AS</title>\n",
        ">time (10 ns)</text>\n",
        // the edges of AS, which falls at the start of the third column and rises at that of the fourth
        "<path d=\"M102 87H342L346 97H462L466 87H582\" fill=\"none\" stroke=\"#000\" stroke-width=\"1.6\"></path>\n",
        "<text x=\"342\" y=\"45\" text-anchor=\"middle\" font-weight=\"bold\" fill=\"#fff\">B3</text>\n",
        ">B3: AS falls",
        ">tenure: none</text>\n",
        ">line AS: variable b.&lt;AS&gt;&amp;&quot;1&quot;, 1 before and 0 at the break</text>\n",
    ] {
        assert!(rt; text.contains(part), "{part} in {text}");
    }
    assert!(rt; text.ends_with("</text>\n</svg>\n"));
    Ok(())
}
