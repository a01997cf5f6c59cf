//! Networks of IPv4 addresses, their prefixes and masks. (networks(5), inet(3))

ghost use Rattle.std.specs.Prelude.{◌≡◌, ◌≤◌, nat_le, if◌then◌else◌};
ghost use Rattle.std.specs.Result.{result_map_both};
ghost use Rattle.desk_text.specs.Address.{number_of, read_short};
ghost use Rattle.desk_text.specs.Network.{IsBlock, block_of, covers, last_of, mask_of, prefix_of_mask, prefixed, read_net_text, read_prefix, with_addr};
ghost use Rattle.desk_text.specs.Views.{written_net};

use crate::address::{Addr, AddrFault};
use crate::bytes::read_decimal;
use std::marker::Model;

/// How many first bits the addresses of a network have in common: 0 to 32. The bits behind them are the host bits.
#[derive(Clone, Copy, Debug, PartialEq, Eq, PartialOrd, Ord, Hash)]
pub struct Prefix {
    bits: u8,
}

impl Model for Prefix {
    ghost use Rattle.std.specs.Prelude.{ℕ, ◌≤◌};

    ghost Value = { ℕ };

    ghost view = { λ prefix. prefix.bits };

    ghost invariant = { λ prefix. prefix.bits ≤ 32 };

    ghost inverse = { λ bits. record { bits = bits } };
}

impl Prefix {
    /// Makes the prefix of this many bits, if there are at most 32.
    pub fn new(bits: u8) -> Option<Prefix>
        ensures { result ≡ (if nat_le bits 32 then Some bits else None) }
    {
        if bits > 32 {
            return None;
        }
        Some(Prefix { bits })
    }

    /// Reads a decimal of 0 to 32, without a leading zero.
    pub fn read(text: &str) -> Option<Prefix>
        ensures { result ≡ read_prefix text.now }
    {
        let bits = read_decimal(text, 32)?;
        Some(Prefix { bits: bits as u8 })
    }

    /// Finds the prefix of which this is the mask. A mask whose set bits are not the first ones has none.
    #[tactic(auto, using(crate::proofs::Masks::prefix_is_ones, crate::proofs::Masks::prefix_is_none))]
    pub fn from_mask(mask: Addr) -> Option<Prefix>
        ensures { result ≡ prefix_of_mask (number_of mask) }
    {
        let bits = mask.number().leading_ones() as u8;
        if mask_of(bits) != mask.number() {
            return None;
        }
        Some(Prefix { bits })
    }

    /// Returns the number of bits.
    pub fn get(self) -> u8
        ensures value { result ≡ self }
        ensures small { result ≤ 32 }
    {
        self.bits
    }
}

/// Returns the mask of a prefix of this many bits.
fn mask_of(bits: u8) -> u32
    requires { bits ≤ 32 }
    ensures { result ≡ mask_of bits }
{
    ((1u64 << 32) - (1u64 << (32 - bits))) as u32
}

/// A network: all addresses with the same first bits.
#[derive(Clone, Copy, Debug, PartialEq, Eq, PartialOrd, Ord, Hash)]
pub struct Net {
    start: Addr,
    prefix: Prefix,
}

impl Model for Net {
    ghost use Rattle.desk_text.specs.Address.{number_of};
    ghost use Rattle.desk_text.specs.Network.{Block, IsBlock};

    ghost Value = { Block };

    ghost view = { λ net. record { first = number_of net.start; prefix = net.prefix } };

    ghost invariant = { λ net. IsBlock (record { first = number_of net.start; prefix = net.prefix }) };

    ghost inverse = { λ block. record { start = record { number = block.first }; prefix = block.prefix } };
}

impl Net {
    /// Makes the network of this prefix that the address is in: its host bits are masked off.
    pub fn new(addr: Addr, prefix: Prefix) -> Net
        ensures { result ≡ block_of (number_of addr) prefix }
    {
        let host_bits = 32 - prefix.get();
        let start = ((u64::from(addr.number()) >> host_bits) << host_bits) as u32;
        Net {
            start: Addr::from_number(start),
            prefix,
        }
    }

    /// Tests whether the address has the first bits of the network.
    pub fn covers(self, addr: Addr) -> bool
        ensures { result ≡ covers self (number_of addr) }
    {
        let host_bits = 32 - self.prefix.get();
        u64::from(addr.number()) >> host_bits == u64::from(self.start.number()) >> host_bits
    }

    /// Returns the first address, in which no host bit is set.
    pub fn first(self) -> Addr
        ensures value { number_of result ≡ self.first }
        ensures network { IsBlock self }
    {
        self.start
    }

    /// Returns the last address, in which every host bit is set.
    pub fn last(self) -> Addr
        ensures { number_of result ≡ last_of self }
    {
        let host_bits = 32 - self.prefix.get();
        let last = u64::from(self.start.number()) + ((1u64 << host_bits) - 1);
        Addr::from_number(last as u32)
    }

    /// Returns how many first bits the addresses have in common.
    pub fn prefix(self) -> Prefix
        ensures { result ≡ self.prefix }
    {
        self.prefix
    }
}

/// A network as a text writes it: an address, with its host bits, and the prefix if one is written.
#[derive(Clone, Copy, Debug, PartialEq, Eq)]
pub struct NetText {
    pub addr: Addr,
    pub prefix: Option<Prefix>,
}

impl NetText {
    /// Reads one to four decimals of 0 to 255 with dots between them, those left out at the end being 0, and then, if
    /// there is a `/`, a prefix of 0 to 32. `Parts` means more than four. (networks(5))
    pub fn read(text: &str) -> Result<NetText, AddrFault>
        ensures { result_map_both written_net (λ fault. fault) result ≡ read_net_text text.now }
    {
        match text.split_once('/') {
            None => {
                let addr = Addr::read_short(text)?;
                Ok(NetText { addr, prefix: None })
            }
            Some((address, prefix)) => read_prefixed(address, prefix),
        }
    }
}

/// Reads an address, and the prefix behind it. The faults of the address come first.
fn read_prefixed(address: &str, prefix: &str) -> Result<NetText, AddrFault>
    ensures { result_map_both written_net (λ fault. fault) result
        ≡ with_addr (read_short address.now) (λ addr. prefixed addr (read_prefix prefix.now)) }
{
    let addr = Addr::read_short(address)?;
    match Prefix::read(prefix) {
        Some(prefix) => Ok(NetText {
            addr,
            prefix: Some(prefix),
        }),
        None => Err(AddrFault::Prefix),
    }
}
