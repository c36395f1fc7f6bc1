// Addresses: four numbers with dots between them.
ghost use Rattle.std.specs.Prelude.{◌≡◌, ◌≤◌};
ghost use Rattle.profile.specs.Address.{octet_ok, octet_of, address_ok, address_of};

use crate::{cut, number};

// A number from 0 to 255.
fn octet_ok(v: &[u8]) -> bool
    ensures { result ≡ octet_ok v.now }
{
    match number::read(v) {
        Ok(n) => n <= 255,
        Err(_) => false,
    }
}

fn octet_of(v: &[u8]) -> u32
    ensures { (result ≡ octet_of v.now) × (result ≤ 255) }
{
    number::number(v).min(255) as u32
}

// Four numbers from 0 to 255.
pub fn address_ok(v: &[u8]) -> bool
    ensures { result ≡ address_ok v.now }
{
    let w = cut::past(v, b'.');
    let x = cut::past(w, b'.');
    octet_ok(cut::up_to(v, b'.'))
        && octet_ok(cut::up_to(w, b'.'))
        && octet_ok(cut::up_to(x, b'.'))
        && octet_ok(cut::past(x, b'.'))
}

// The address that the four numbers are.
pub fn address(v: &[u8]) -> u32
    ensures { result ≡ address_of v.now }
{
    let w = cut::past(v, b'.');
    let x = cut::past(w, b'.');
    let a = octet_of(cut::up_to(v, b'.'));
    let b = octet_of(cut::up_to(w, b'.'));
    let c = octet_of(cut::up_to(x, b'.'));
    let d = octet_of(cut::past(x, b'.'));
    ((a * 256 + b) * 256 + c) * 256 + d
}
