// The writers of types 0 and 1, for C: each export is the function of svsc_version_writers of that name.
#![tactic(auto)]

ghost use Rattle.std.specs.Prelude.{◌≡◌};
ghost use Rattle.svsc.specs.Messages.{protocol_version, version_answer};
ghost use Rattle.svsc.specs.Writing.{write, written};

use svsc::Written;

#[unsafe(no_mangle)]
pub extern "C" fn svsc_write_version(buffer: &mut [u8], major: u16, minor: u16) -> Written
    ensures { written result buffer.new ≡ write (protocol_version major minor) buffer.old }
{
    svsc_version_writers::svsc_write_version(buffer, major, minor).into()
}

#[unsafe(no_mangle)]
pub extern "C" fn svsc_write_version_answer(buffer: &mut [u8], ok: u8) -> Written
    ensures { written result buffer.new ≡ write (version_answer ok) buffer.old }
{
    svsc_version_writers::svsc_write_version_answer(buffer, ok).into()
}
