//! The nets of codes, found in constant or logarithmic time whatever the codes are.

ghost use Rattle.std.specs.Prelude.{◌≡◌, ◌==◌, ◌&&◌, if◌then◌else◌, ◌<◌, ◌≤◌, ◌^◌, ℕ, List, Some, None, IfSome, OnOk};
ghost use Rattle.std.specs.Prelude.{OnErr, bytes_eq, nat_eq, length, slice_index_or};
ghost use Rattle.std.specs.Map.{update};
ghost use Rattle.vcd_read.specs.CodeNumbers.{digit, short_place};
ghost use Rattle.vcd_read.specs.CodeIndexes.{net_at_entry};

use std::alloc::{AllocError, Global};
use std::collections::BTreeMap;

/// Where the net of a code of at most three bytes is.
#[derive(Clone, Copy)]
pub(crate) struct CodePlace {
    /// The index of the page, which the bytes after the first determine.
    pub page: usize,
    /// The index of the entry on that page, which the first byte determines.
    pub entry: usize,
}

/// The net of each code that has one. Codes of at most three bytes have places of their own, on pages that are no
/// longer than they need, and the others are ordered, so no choice of codes makes a look-up slow.
#[derive(Drop)]
pub(crate) struct CodeIndex {
    /// The pages of the nets of the codes of at most three bytes.
    short: Vec<Vec<Option<u32>>>,
    /// The nets of the other codes.
    long: BTreeMap<Vec<u8>, u32>,
}

impl CodeIndex {
    ghost use Rattle.vcd_read.specs.CodeIndexes.{net_of_code, net_at};

    /// No code has a net.
    pub fn new(alloc: Global) -> CodeIndex
        ensures { (code : List ℕ) → net_at result code ≡ None }
    {
        CodeIndex {
            short: Vec::new(alloc),
            long: BTreeMap::new(alloc),
        }
    }

    /// The net of a code, where it has one.
    #[inline(always)]
    pub fn get(&self, code: &[u8]) -> Option<u32>
        ensures { result ≡ net_at self.now code.now }
    {
        match short_place(code) {
            Some(place) => net_at_entry(&self.short, place),
            None => self.get_long(code),
        }
    }

    /// The net of a code without a place, where it has one.
    #[inline(never)]
    fn get_long(&self, code: &[u8]) -> Option<u32>
        ensures { result ≡ net_of_code self.now.short.items self.now.long.entries code.now None }
    {
        self.long.get(code).copied()
    }

    /// Gives a code a net. Where memory runs out, each code has the net that it had.
    pub fn insert(&mut self, alloc: Global, code: &[u8], net: u32) -> Result<(), AllocError>
        ensures ok { OnOk result ((other : List ℕ)
            → net_at self.new other ≡ update bytes_eq (net_at self.old) code.now (Some net) other) }
        ensures err { OnErr result ((other : List ℕ) → net_at self.new other ≡ net_at self.old other) }
    {
        match short_place(code) {
            Some(place) => set_net(alloc, &mut self.short, place, net)?,
            None => {
                self.long.insert(Vec::from_slice(alloc, code)?, net)?;
            }
        }
        Ok(())
    }
}

/// The net at a place, where it has one.
#[inline(always)]
fn net_at_entry(pages: &[Vec<Option<u32>>], place: CodePlace) -> Option<u32>
    ensures { result ≡ net_at_entry pages.now place.page place.entry }
{
    match pages.get(place.page) {
        Some(page) => net_at_page_entry(page, place.entry),
        None => None,
    }
}

/// The net at an entry of a page, where it has one.
#[inline(always)]
fn net_at_page_entry(nets: &[Option<u32>], entry: usize) -> Option<u32>
    ensures { result ≡ slice_index_or nets.now entry None }
{
    nets.get(entry).copied().flatten()
}

/// Sets the net at a place, and makes its page first. Where memory runs out, each place has the net that it had.
fn set_net(
    alloc: Global,
    pages: &mut Vec<Vec<Option<u32>>>,
    place: CodePlace,
    net: u32,
) -> Result<(), AllocError>
    requires { (place.page < 2 ^ 32) × (place.entry < 2 ^ 32) }
    ensures ok { OnOk result ((page entry : ℕ) → net_at_entry pages.new.items page entry
        ≡ (if place.page == page && place.entry == entry then Some net else net_at_entry pages.old.items page entry)) }
    ensures err { OnErr result ((page entry : ℕ) → net_at_entry pages.new.items page entry
        ≡ net_at_entry pages.old.items page entry) }
{
    make_page(alloc, pages, place.page)?;
    set_on_page(&mut pages[place.page], place.entry, net)?;
    Ok(())
}

/// Makes the pages up to `page`. There is no net on the new ones.
fn make_page(
    alloc: Global,
    pages: &mut Vec<Vec<Option<u32>>>,
    page: usize,
) -> Result<(), AllocError>
    ensures made { OnOk result (page < length pages.new.items) }
    ensures same { (page entry : ℕ) → net_at_entry pages.new.items page entry
        ≡ net_at_entry pages.old.items page entry }
{
    while pages.len() <= page {
        pages.reserve(1)?;
        pages.push_reserved(Vec::new(alloc));
    }
    Ok(())
}

/// Sets the net at an entry of a page, which grows up to that entry.
fn set_on_page(nets: &mut Vec<Option<u32>>, entry: usize, net: u32) -> Result<(), AllocError>
    requires { entry < 2 ^ 32 }
    ensures ok { OnOk result ((k : ℕ) → slice_index_or nets.new.items k None
        ≡ update nat_eq (λ j. slice_index_or nets.old.items j None) entry (Some net) k) }
    ensures err { OnErr result (nets.new.items ≡ nets.old.items) }
{
    if entry >= nets.len() {
        nets.resize(entry + 1, None)?;
    }
    nets[entry] = Some(net);
    Ok(())
}

/// The digit that a byte of a code stands for, from 1 to 94.
fn digit(byte: u8) -> Option<usize>
    ensures is { result ≡ digit byte }
    ensures small { IfSome result (λ d. d ≤ 94) }
{
    if byte.is_ascii_graphic() {
        Some(byte as usize - 32)
    } else {
        None
    }
}

/// The place of a code of at most three bytes.
#[inline(always)]
fn short_place(code: &[u8]) -> Option<CodePlace>
    ensures is { result ≡ short_place code.now }
    ensures small { IfSome result (λ place. (place.page ≤ 8930) × (place.entry ≤ 94)) }
{
    match code {
        [] => Some(CodePlace { page: 0, entry: 0 }),
        [a] => Some(CodePlace {
            page: 0,
            entry: digit(*a)?,
        }),
        [a, b] => Some(CodePlace {
            page: digit(*b)?,
            entry: digit(*a)?,
        }),
        [a, b, c] => Some(CodePlace {
            page: digit(*b)? + 94 * digit(*c)?,
            entry: digit(*a)?,
        }),
        _ => None,
    }
}
