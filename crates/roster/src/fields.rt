// Numbers as they stand in a block: in one, two or four bytes, the high byte first.
ghost use Rattle.std.specs.Prelude.{◌≡◌, ℕ, ◌+◌, ◌≤◌, List};
ghost use Rattle.roster.specs.Layout.{byte_at, two_at, four_at};

use crate::blocks::Block;

// A number that a block can hold.
pub(crate) trait Field: Copy + PartialEq {
    // How many bytes it takes.
    ghost width: { ℕ };

    // The number that begins at a byte of a block, by the bytes of the roster.
    ghost value_at: { List ℕ → ℕ → ℕ → Self };

    // The number that begins at a byte of a block.
    fn from_block(block: &Block<'_>, at: u16) -> Self
        requires { at + width ≤ 512 }
        ensures { result ≡ value_at block.now.roster.now block.now.number at };
}

impl Field for u8 {
    ghost width = { 1 };

    ghost value_at = { byte_at };

    fn from_block(block: &Block<'_>, at: u16) -> u8 {
        block.byte(at)
    }
}

impl Field for u16 {
    ghost width = { 2 };

    ghost value_at = { two_at };

    fn from_block(block: &Block<'_>, at: u16) -> u16 {
        u16::from_be_bytes([block.byte(at), block.byte(at + 1)])
    }
}

impl Field for u32 {
    ghost width = { 4 };

    ghost value_at = { four_at };

    fn from_block(block: &Block<'_>, at: u16) -> u32 {
        u32::from_be_bytes([
            block.byte(at),
            block.byte(at + 1),
            block.byte(at + 2),
            block.byte(at + 3),
        ])
    }
}
