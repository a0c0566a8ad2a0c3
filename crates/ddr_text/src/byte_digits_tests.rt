//! The loops over all digits of 64 bytes against the library's, which go digit by digit.
ghost use Rattle.std.specs.Prelude.{◌<◌};

use crate::byte_digits::{bytes_at_once, digits_of, lower_bytes_at_once};
use crate::digits::judged_lower_bytes_of;
use crate::fields::judged_bytes_of;

// 128 digits, one of them replaced.
fn field_with(place: usize, byte: u8) -> [u8; 128]
    requires { place < 128 }
{
    let mut field = [0u8; 128];
    for k in 0..16_usize {
        let digits = b"0129af8c";
        for j in 0..8_usize {
            field[8 * k + j] = digits[j];
        }
    }
    field[place] = byte;
    field
}

#[test]
fn each_byte_at_each_place_is_judged_alike(rt: HostRuntime) {
    for place in 0..128_usize {
        for byte in 0..=255 {
            let field = field_with(place, byte);
            assert!(rt; bytes_at_once(&field) == judged_bytes_of(&field).ok());
            assert!(rt; lower_bytes_at_once(&field) == judged_lower_bytes_of(&field).ok());
        }
    }
}

#[test]
fn each_byte_is_spelled_alike(rt: HostRuntime) {
    for byte in 0..=255 {
        let bytes = [byte; 64];
        let mut digits = [0u8; 128];
        assert!(rt; hex::encode_to_slice(bytes.as_slice(), &mut digits).is_ok());
        assert!(rt; digits_of(&bytes) == digits);
    }
}
