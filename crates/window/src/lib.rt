// The window that samples are read from: one lent slice of bytes, and the address of its first. `physical` hands back the part of the slice
// that was asked for, uncopied, or its empty part where some byte is absent; `present` tells an absent part from an empty one. Both take
// any window, address and length. `accept` refuses, by 4, a window that would end past the last 32-bit address.
#![tactic(auto)]

ghost use Rattle.std.specs.Prelude.{◌≡◌, length};
ghost use Rattle.refusals.specs.Numbers.{number_of};
ghost use Rattle.window.specs.Window.{present_in, look_up, window_number};

use refusals::Refusal;

// One more than the last 32-bit address.
pub const ADDRESSES: usize = 4294967296;

// Lent bytes, the first of which has the address `base`.
#[derive(Clone, Copy)]
pub struct Window<'a> {
    pub bytes: &'a [u8],
    pub base: u32,
}

// Refuses a window of so many bytes that ends past the last 32-bit address.
pub fn accept(base: u32, size: usize) -> Result<(), Refusal>
    ensures { number_of result ≡ window_number base size }
{
    if size > ADDRESSES - base as usize {
        return Err(Refusal::WindowEnd);
    }
    Ok(())
}

impl<'a> Window<'a> {
    // Whether every byte asked for lies in the window. Of no byte that is so wherever the address is.
    pub fn present(self, address: u32, count: u32) -> bool
        ensures { result ≡ present_in (length self.entry.bytes.now) self.entry.base address count }
    {
        count == 0
            || address >= self.base
                && u64::from(address) + u64::from(count)
                    <= u64::from(self.base) + self.bytes.len() as u64
    }

    // The part of the window that was asked for, or its empty part where some of it is absent.
    // No `Option`: document 01's look-up hands back a part, empty where absent, with `present` as the test beside it.
    pub fn physical(self, address: u32, length: u32) -> &'a [u8]
        ensures { result.now ≡ look_up self.entry.bytes.now self.entry.base address length }
    {
        if length == 0 || !self.present(address, length) {
            return &self.bytes[..0];
        }
        let start = (address - self.base) as usize;
        &self.bytes[start..start + length as usize]
    }
}
