//! Numbers of four bytes, the greatest first, appended to an image.
ghost use Rattle.std.specs.Prelude.{◌≡◌, ◌++◌, OnOk};
ghost use Rattle.vx_format.specs.Numbers.{number};
ghost use Rattle.vx_format.specs.Layout.{optional};

use std::alloc::AllocError;

fn bytes_of_u32(n: u32) -> [u8; 4]
    ensures { result ≡ number 4 n }
{
    n.to_be_bytes()
}

/// Appends a number.
pub fn write_number(n: u32, out: &mut Vec<u8>) -> Result<(), AllocError>
    ensures { OnOk result (out.new.items ≡ out.old.items ++ number 4 n) }
{
    out.extend_from_slice(&bytes_of_u32(n))
}

/// Appends a number, or ffffffff where there is none.
pub fn write_optional(n: Option<u32>, out: &mut Vec<u8>) -> Result<(), AllocError>
    ensures { OnOk result (out.new.items ≡ out.old.items ++ optional n) }
{
    match n {
        None => write_number(u32::MAX, out),
        Some(n) => write_number(n, out),
    }
}
