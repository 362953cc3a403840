// The writers of types 2 to 5, for C: each export is the function of svsc_lease_writers of that name.
#![tactic(auto)]

ghost use Rattle.std.specs.Prelude.{◌≡◌};
ghost use Rattle.svsc.specs.Messages.{lease_request, lease_request_with_cookie, lease_refused, lease_granted, extension_request};
ghost use Rattle.svsc.specs.Messages.{extension_refused, extension_granted};
ghost use Rattle.svsc.specs.Writing.{write, written};

use svsc::Written;

#[unsafe(no_mangle)]
pub extern "C" fn svsc_write_lease_request(buffer: &mut [u8]) -> Written
    ensures { written result buffer.new ≡ write lease_request buffer.old }
{
    svsc_lease_writers::svsc_write_lease_request(buffer).into()
}

#[unsafe(no_mangle)]
pub extern "C" fn svsc_write_lease_request_with_cookie(buffer: &mut [u8], cookie: &[u8]) -> Written
    ensures { written result buffer.new ≡ write (lease_request_with_cookie cookie.now) buffer.old }
{
    svsc_lease_writers::svsc_write_lease_request_with_cookie(buffer, cookie).into()
}

#[unsafe(no_mangle)]
pub extern "C" fn svsc_write_lease_refused(buffer: &mut [u8]) -> Written
    ensures { written result buffer.new ≡ write lease_refused buffer.old }
{
    svsc_lease_writers::svsc_write_lease_refused(buffer).into()
}

#[unsafe(no_mangle)]
pub extern "C" fn svsc_write_lease_granted(
    buffer: &mut [u8],
    id: u32,
    cookie: &[u8],
    expiration: u64,
) -> Written
    ensures { written result buffer.new ≡ write (lease_granted id cookie.now expiration) buffer.old }
{
    svsc_lease_writers::svsc_write_lease_granted(buffer, id, cookie, expiration).into()
}

#[unsafe(no_mangle)]
pub extern "C" fn svsc_write_extension_request(buffer: &mut [u8], cookie: &[u8]) -> Written
    ensures { written result buffer.new ≡ write (extension_request cookie.now) buffer.old }
{
    svsc_lease_writers::svsc_write_extension_request(buffer, cookie).into()
}

#[unsafe(no_mangle)]
pub extern "C" fn svsc_write_extension_refused(buffer: &mut [u8]) -> Written
    ensures { written result buffer.new ≡ write extension_refused buffer.old }
{
    svsc_lease_writers::svsc_write_extension_refused(buffer).into()
}

#[unsafe(no_mangle)]
pub extern "C" fn svsc_write_extension_granted(buffer: &mut [u8], expiration: u64) -> Written
    ensures { written result buffer.new ≡ write (extension_granted expiration) buffer.old }
{
    svsc_lease_writers::svsc_write_extension_granted(buffer, expiration).into()
}
