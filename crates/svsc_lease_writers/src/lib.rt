// The writers of types 2 to 5, leases and their extensions: a function for each form, for svsc_lease_writers_c and the crates above.
#![tactic(auto, unfolding(svsc::specs::Writing::write, svsc::specs::Messages::encode, svsc::specs::Messages::well_formed))]

ghost use Rattle.std.specs.Prelude.{◌≡◌};
ghost use Rattle.svsc.specs.Messages.{lease_request, lease_request_with_cookie, lease_refused, lease_granted, extension_request};
ghost use Rattle.svsc.specs.Messages.{extension_refused, extension_granted};
ghost use Rattle.svsc.specs.Writing.{write, written, as_written};

use octet_comparisons::sized;
use svsc::Refused;
use svsc_parts::{put_part, put_parts};

pub fn svsc_write_lease_request(buffer: &mut [u8]) -> Result<usize, Refused>
    ensures { written (as_written result) buffer.new ≡ write lease_request buffer.old }
{
    put_part(buffer, true, 2, &[0])
}

pub fn svsc_write_lease_request_with_cookie(
    buffer: &mut [u8],
    cookie: &[u8],
) -> Result<usize, Refused>
    ensures { written (as_written result) buffer.new ≡ write (lease_request_with_cookie cookie.now) buffer.old }
{
    let fits = sized(cookie, svsc::COOKIE);
    put_parts(buffer, fits, 2, &[1], cookie, b"", b"")
}

pub fn svsc_write_lease_refused(buffer: &mut [u8]) -> Result<usize, Refused>
    ensures { written (as_written result) buffer.new ≡ write lease_refused buffer.old }
{
    put_part(buffer, true, 3, &[0])
}

pub fn svsc_write_lease_granted(
    buffer: &mut [u8],
    id: u32,
    cookie: &[u8],
    expiration: u64,
) -> Result<usize, Refused>
    ensures { written (as_written result) buffer.new ≡ write (lease_granted id cookie.now expiration) buffer.old }
{
    let fits = sized(cookie, svsc::COOKIE);
    let name = octets::bytes::<4>(id as u64);
    let until = octets::bytes::<8>(expiration);
    put_parts(buffer, fits, 3, &[1], &name, cookie, &until)
}

pub fn svsc_write_extension_request(buffer: &mut [u8], cookie: &[u8]) -> Result<usize, Refused>
    ensures { written (as_written result) buffer.new ≡ write (extension_request cookie.now) buffer.old }
{
    put_part(buffer, sized(cookie, svsc::COOKIE), 4, cookie)
}

pub fn svsc_write_extension_refused(buffer: &mut [u8]) -> Result<usize, Refused>
    ensures { written (as_written result) buffer.new ≡ write extension_refused buffer.old }
{
    put_part(buffer, true, 5, &[0])
}

pub fn svsc_write_extension_granted(buffer: &mut [u8], expiration: u64) -> Result<usize, Refused>
    ensures { written (as_written result) buffer.new ≡ write (extension_granted expiration) buffer.old }
{
    let until = octets::bytes::<8>(expiration);
    put_parts(buffer, true, 5, &[1], &until, b"", b"")
}
