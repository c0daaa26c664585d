//! The nets by their identifier codes.

ghost use Rattle.std.specs.Prelude.{◌≡◌, ◌<◌, ◌++◌, ◌∷◌, [], None, length, IfOk, OnOk, OnErr};
ghost use Rattle.vcd_read.specs.Header.{net_of, size_of};
ghost use Rattle.vcd_read.specs.OneByteCodes.{sized_net_of};

use crate::code_index::CodeIndex;
use crate::one_byte_codes::{enter_one_byte_code, no_one_byte_codes, one_byte_net};
use std::alloc::{AllocError, Global};
use std::marker::Model;

/// The identifier code of a net, and how many bits the net has.
#[derive(Drop)]
pub(crate) struct NetCode {
    code: Vec<u8>,
    size: u32,
}

/// The nets that are declared, in the order of their first declarations.
#[derive(Drop)]
pub(crate) struct Codes {
    nets: Vec<NetCode>,
    /// The net of each code.
    index: CodeIndex,
    /// The net of each code of one byte, and how many bits it has, by that byte.
    one_byte: Vec<Option<(u32, u32)>>,
}

impl Model for Codes {
    ghost use Rattle.std.specs.Prelude.{List, map};
    ghost use Rattle.vcd_read.specs.Header.{Net};
    ghost use Rattle.vcd_read.specs.OneByteCodes.{HasOneByteCodes};
    ghost use Rattle.vcd_read.specs.Nets.{net_code, AreIndexed};

    ghost Value = { List Net };

    ghost view = { λ c. map net_code c.nets.items };

    ghost invariant = { λ c. AreIndexed (map net_code c.nets.items) c.index
        × HasOneByteCodes (map net_code c.nets.items) c.one_byte.items };
}

impl Codes {
    /// No code yet. It fails if memory runs out.
    pub fn new(alloc: Global) -> Result<Codes, AllocError>
        ensures { IfOk result (λ c. c ≡ []) }
    {
        Ok(Codes {
            nets: Vec::new(alloc),
            index: CodeIndex::new(alloc),
            one_byte: no_one_byte_codes(alloc)?,
        })
    }

    /// How many nets there are.
    pub fn len(&self) -> usize
        ensures { result ≡ length self.now }
    {
        self.nets.len()
    }

    /// The net of a code, if the code has one.
    #[inline(always)]
    pub fn net(&self, code: &[u8]) -> Option<u32>
        ensures { result ≡ net_of self.now code.now }
    {
        self.index.get(code)
    }

    /// The net of the code of the one byte `byte`, and the size of the net, if the code has one.
    #[inline(always)]
    fn of_one_byte(&self, byte: u8) -> Option<(u32, u32)>
        ensures { result ≡ sized_net_of self.now (byte ∷ []) }
    {
        one_byte_net(self.one_byte.as_slice(), byte)
    }

    /// The net of a code, and the size of the net, if the code has one.
    #[inline(always)]
    pub fn find(&self, code: &[u8]) -> Option<(u32, u32)>
        ensures { result ≡ sized_net_of self.now code.now }
    {
        if let [byte] = code {
            return self.of_one_byte(*byte);
        }
        let number = self.net(code)?;
        let size = self.size(number);
        Some((number, size))
    }

    /// The size of a net: how many bits it has.
    #[inline(always)]
    pub fn size(&self, net: u32) -> u32
        requires { net < length self.now }
        ensures { result ≡ size_of self.now net }
    {
        self.nets[net as usize].size
    }

    /// Adds a net of `size` bits with a new code, and returns its number: how many nets there are before it. It fails
    /// if memory runs out or there are 2^32 - 1 nets, and then the nets are as they were.
    pub fn add(&mut self, alloc: Global, code: &[u8], size: u32) -> Result<u32, AllocError>
        requires { net_of self.old code.now ≡ None }
        ensures added { OnOk result (self.new ≡ self.old ++ record { code = code.now; size = size } ∷ []) }
        ensures net { IfOk result (λ n. n ≡ length self.old) }
        ensures err { OnErr result (self.new ≡ self.old) }
    {
        let net = self.nets.len();
        if net >= u32::MAX as usize {
            return Err(AllocError);
        }
        let net = net as u32;
        let bytes = Vec::from_slice(alloc, code)?;
        self.nets.reserve(1)?;
        self.index.insert(alloc, code, net)?;
        self.nets.push_reserved(NetCode { code: bytes, size });
        enter_one_byte_code(&mut self.one_byte, code, (net, size));
        Ok(net)
    }
}
