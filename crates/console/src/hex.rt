// Bytes in hexadecimal, 32 to a line.
ghost use Rattle.std.specs.Prelude.{◌≡◌, ◌<◌, ◌++◌, string_bytes, OnOk};
ghost use Rattle.std.specs.List.{flat_map};
ghost use Rattle.console.specs.Hex.{hex_digit, hex_of, hex_lines};

use std::alloc::AllocError;

pub fn push_hex_lines(out: &mut String, bytes: &[u8]) -> Result<(), AllocError>
    ensures { OnOk result (string_bytes out.new ≡ string_bytes out.old ++ hex_lines bytes.now) }
{
    for line in bytes.chunks(32) {
        push_hex(out, line)?;
        out.push('\n')?;
    }
    Ok(())
}

fn push_hex(out: &mut String, bytes: &[u8]) -> Result<(), AllocError>
    ensures { OnOk result (string_bytes out.new ≡ string_bytes out.old ++ flat_map hex_of bytes.now) }
{
    for byte in bytes {
        out.push(digit(*byte / 16))?;
        out.push(digit(*byte % 16))?;
    }
    Ok(())
}

// `write!` would run the formatter for each byte of a slip.
fn digit(n: u8) -> char
    requires { n < 16 }
    ensures { result ≡ hex_digit n }
{
    char::from_digit(u32::from(n), 16).unwrap()
}
