// The writers of types 0 and 1, the versions: a function for each form, for svsc_version_writers_c and the crates above.
#![tactic(auto, unfolding(svsc::specs::Writing::write, svsc::specs::Messages::encode, svsc::specs::Messages::well_formed))]

ghost use Rattle.std.specs.Prelude.{◌≡◌};
ghost use Rattle.svsc.specs.Messages.{digits, protocol_version, version_answer};
ghost use Rattle.svsc.specs.Writing.{write, written, as_written};

use svsc::Refused;
use svsc_parts::{put_part, put_parts};

// Three digits of a number.
fn digits(n: u16) -> [u8; 3]
    ensures { result ≡ digits n }
{
    [
        (48 + n / 100 % 10) as u8,
        (48 + n / 10 % 10) as u8,
        (48 + n % 10) as u8,
    ]
}

pub fn svsc_write_version(buffer: &mut [u8], major: u16, minor: u16) -> Result<usize, Refused>
    ensures { written (as_written result) buffer.new ≡ write (protocol_version major minor) buffer.old }
{
    let xxx = digits(major);
    let yyy = digits(minor);
    put_parts(
        buffer,
        (major < 1000) & (minor < 1000),
        0,
        &svsc::VERSION_NAME,
        &xxx,
        &svsc::VERSION_POINT,
        &yyy,
    )
}

pub fn svsc_write_version_answer(buffer: &mut [u8], ok: u8) -> Result<usize, Refused>
    ensures { written (as_written result) buffer.new ≡ write (version_answer ok) buffer.old }
{
    put_part(buffer, ok <= 1, 1, &[ok])
}
