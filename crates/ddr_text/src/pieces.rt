//! Pieces of a line: each is written behind what stands in the line already. A line has room for 512 bytes.
ghost use Rattle.std.specs.Prelude.{◌≡◌, ◌++◌, ◌≤◌, ◌+◌, length, codes};
ghost use Rattle.std.specs.Fmt.{decimal};
ghost use Rattle.hex.specs.Hex.{encode_lower};
ghost use Rattle.ddr_text.specs.Spelling.{spaced};

use crate::byte_digits::digits_of;
use arrayvec::ArrayVec;

/// Appends a text that has room.
pub fn put_text(text: &[u8], out: &mut ArrayVec<u8, 512>)
    requires room { length out.old.items + length text.now ≤ 512 }
    ensures text { out.new.items ≡ out.old.items ++ text.now }
{
    let _ = out.try_extend_from_slice(text);
}

/// Appends a number in decimal digits, of which it has at most 20.
pub fn put_number(number: u64, out: &mut ArrayVec<u8, 512>)
    requires room { length out.old.items + 20 ≤ 512 }
    ensures digits { out.new.items ≡ out.old.items ++ decimal number }
    ensures short { length out.new.items ≤ length out.old.items + 20 }
{
    let mut buffer = itoa::Buffer::new();
    put_text(buffer.format(number).as_bytes(), out);
}

/// Appends a space and a number in decimal digits.
pub fn put_spaced(number: u64, out: &mut ArrayVec<u8, 512>)
    requires room { length out.old.items + 21 ≤ 512 }
    ensures digits { out.new.items ≡ out.old.items ++ spaced number }
    ensures short { length out.new.items ≤ length out.old.items + 21 }
{
    put_text(b" ", out);
    put_number(number, out);
}

/// Appends a space and 64 bytes in 128 lower-case hexadecimal digits, byte 0 first.
pub fn put_bytes(bytes: &[u8; 64], out: &mut ArrayVec<u8, 512>)
    requires room { length out.old.items + 129 ≤ 512 }
    ensures digits { out.new.items ≡ out.old.items ++ (codes " " ++ encode_lower bytes.now) }
    ensures long { length out.new.items ≡ length out.old.items + 129 }
{
    put_text(b" ", out);
    put_text(&digits_of(bytes), out);
}
