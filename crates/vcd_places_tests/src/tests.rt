use std::alloc::{AllocError, Global};
use std::process::Abort;
use vcd_places::{definitions_end, unused_codes};

/// Definitions up to byte 43, and a body with four time stamps: others are in a comment or are codes, and one is too
/// large.
const TEXT: &[u8] =
    b"$var wire 1 ! a $end $enddefinitions x $end\n#0 1! $comment #5 #6 $end b1 #7 s#8 #9\n#10 0!\n\
#18446744073709551616 r#1 #2 #10 $end #11";

/// Whether the section from `start` to `end` ends the definitions of `text`, and its body has the time stamps `times`,
/// each with the place after it.
fn tells_times(text: &[u8], start: usize, end: usize, times: &[(u64, usize)]) -> bool {
    let Some((section, mut places)) = definitions_end(text) else {
        return false;
    };
    for wanted in times {
        match places.next() {
            Some(place) => {
                if (place.time, place.end) != *wanted {
                    return false;
                }
            }
            None => return false,
        }
    }
    section.start == start
        && section.end == end
        && places.next().is_none()
        && places.next().is_none()
}

static TIMES: [(u64, usize); 4] = [(0, 46), (10, 86), (10, 122), (11, 131)];

#[test]
fn times_stand_where_they_are_told(rt: HostRuntime) {
    assert!(rt; tells_times(TEXT, 21, 43, &TIMES));
}

#[test]
fn definitions_end_once_they_are_whole(rt: HostRuntime) {
    for count in 0..TEXT.len() {
        assert_eq!(rt;
            definitions_end(&TEXT[..count]).is_some(),
            count >= 43,
            "{count}"
        );
    }
}

/// Texts whose definitions don't end.
static ENDLESS: [&[u8]; 5] = [
    b"",
    b"$enddefinitions",
    b"$enddefinitions$end",
    b"$comment $enddefinitions $end",
    b"x $end",
];

#[test]
fn definitions_may_not_end(rt: HostRuntime) {
    for text in ENDLESS.iter() {
        assert!(rt; definitions_end(text).is_none());
    }
}

/// The codes, each with a space after it.
fn joined(alloc: Global, found: &[Vec<u8>]) -> Result<Vec<u8>, AllocError> {
    let mut all = Vec::new(alloc);
    for code in found {
        all.extend_from_slice(code)?;
        all.push(b' ')?;
    }
    Ok(all)
}

/// Whether the first four codes that `text` doesn't use are `codes`, each with a space after it.
fn lacks_codes(alloc: Global, text: &[u8], codes: &[u8]) -> Option<bool> {
    let found = unused_codes(alloc, text, 4).ok()?;
    let all = joined(alloc, &found).ok()?;
    Some(all.as_slice() == codes)
}

/// Texts, and the first four codes that each doesn't use. The last text uses all codes of one byte, and two of two.
static CODES: [(&[u8], &[u8]); 4] = [
    (b"", b"! \" # $ "),
    (b"! # \xff !! $end", b"\" $ % & "),
    (b"\" # $ % & ' ( ) * + , - . /", b"! 0 1 2 "),
    (
        b"! \" # $ % & ' ( ) * + , - . / 0 1 2 3 4 5 6 7 8 9 : ; < = > ? @ A B C D E F G H I J K L M N O \
P Q R S T U V W X Y Z [ \\ ] ^ _ ` a b c d e f g h i j k l m n o p q r s t u v w x y z { | } ~ \"! #!",
        b"!! $! %! &! ",
    ),
];

#[test]
fn codes_are_no_tokens(rt: HostRuntime) {
    for (text, codes) in CODES.iter() {
        assert!(rt; lacks_codes(rt.alloc(), text, codes) == Some(true));
    }
}
