// An account as it travels between programs, in 128 bytes; include/prskavon.h has the table.
#![tactic(auto)]

ghost use Rattle.std.specs.Prelude.{◌≡◌, ◌+◌, ◌≤◌};
ghost use Rattle.std.proofs.lemmas.List.Edits.{sets};
ghost use Rattle.travel.specs.AccountRecords.{size, figure_at, account_in, is_plain, above_ceiling, offered, figure_bytes, setting_byte, record_of};

use account::Account;

// The bytes of an account.
pub const SIZE: usize = 128;

// The first byte that is not used.
const UNUSED: usize = 82;

// The number in the four bytes from `at` on, written out: a part of them would be tested for its length as it runs.
#[tactic(auto, using(lists::proofs::Numbers::four_read))]
fn figure(bytes: &[u8; SIZE], at: usize) -> u32
    requires { at + 4 ≤ size }
    ensures { result ≡ figure_at at bytes.now }
{
    u32::from_le_bytes([bytes[at], bytes[at + 1], bytes[at + 2], bytes[at + 3]])
}

// The five settings are written out: of a `map` over a part of the bytes no proof closed.
fn account_in(bytes: &[u8; SIZE]) -> Account
    ensures { result ≡ account_in bytes.now }
{
    Account {
        count: figure(bytes, 0),
        mass: figure(bytes, 4),
        vmass: figure(bytes, 8),
        mmass: figure(bytes, 12),
        length: figure(bytes, 16),
        axles: figure(bytes, 20),
        vaxles: figure(bytes, 24),
        engines: figure(bytes, 28),
        mset: figure(bytes, 32),
        isolated: figure(bytes, 36),
        dloads: figure(bytes, 40),
        leading: figure(bytes, 44),
        trailing: figure(bytes, 48),
        longest: figure(bytes, 52),
        behind: bytes[56] == 1,
        rule16: bytes[57] == 1,
        rule17: bytes[58] == 1,
        rule18: bytes[59] == 1,
        slowest: figure(bytes, 60),
        first: [
            u32::from(bytes[64]),
            u32::from(bytes[65]),
            u32::from(bytes[66]),
            u32::from(bytes[67]),
            u32::from(bytes[68]),
        ],
        vlength: figure(bytes, 69),
        enginemmass: figure(bytes, 73),
        wagonvmass: figure(bytes, 77),
        enginenotm: bytes[81] == 1,
    }
}

// Whether no mark is above 1 and no unused byte above 0. Each unused byte is asked, with no stop at the first: so they go sixteen at a time.
fn is_plain(bytes: &[u8; SIZE]) -> bool
    ensures { result ≡ is_plain bytes.now }
{
    let marks = [bytes[56], bytes[57], bytes[58], bytes[59], bytes[81]];
    marks.iter().all(|mark| *mark <= 1)
        & bytes[UNUSED..]
            .iter()
            .fold(true, |unused, byte| unused & (*byte == 0))
}

// Bytes whose account is above its ceiling, and no None: of what C lends, 7 refuses what is no account (`offered`).
fn above_ceiling() -> [u8; SIZE]
    ensures { result ≡ above_ceiling }
{
    let mut bytes = [0; SIZE];
    bytes[0] = 201;
    bytes
}

// The account that bytes offer, and one above its ceiling where they are none.
pub fn offered_by(bytes: &[u8]) -> Account
    ensures { result ≡ offered bytes.now }
{
    match bytes.as_array() {
        Some(bytes) if is_plain(bytes) => account_in(bytes),
        _ => account_in(&above_ceiling()),
    }
}

// Puts a figure into the four bytes from `at` on.
#[tactic(auto, using(crate::proofs::AccountRecords::four_put))]
fn put_figure(bytes: &mut [u8; SIZE], at: usize, x: u32)
    requires { at + 4 ≤ size }
    ensures { bytes.new ≡ sets bytes.old at (figure_bytes x) }
{
    bytes[at..at + 4].copy_from_slice(&x.to_le_bytes());
}

// A setting above 255 as 255, so that it reads back above its ceiling.
fn setting_byte(setting: u32) -> u8
    ensures { result ≡ setting_byte setting }
{
    setting.min(255) as u8
}

// The bytes of an account; one above its ceilings reads back above them. Line by line, so that each place stands beside its figure, as in the header's table.
// A function, as is `offered_by`, and no From: neither an account nor an array of bytes is a type of this crate.
pub fn record_of(a: Account) -> [u8; SIZE]
    ensures { result ≡ record_of a }
{
    let mut bytes = [0u8; SIZE];
    put_figure(&mut bytes, 0, a.count);
    put_figure(&mut bytes, 4, a.mass);
    put_figure(&mut bytes, 8, a.vmass);
    put_figure(&mut bytes, 12, a.mmass);
    put_figure(&mut bytes, 16, a.length);
    put_figure(&mut bytes, 20, a.axles);
    put_figure(&mut bytes, 24, a.vaxles);
    put_figure(&mut bytes, 28, a.engines);
    put_figure(&mut bytes, 32, a.mset);
    put_figure(&mut bytes, 36, a.isolated);
    put_figure(&mut bytes, 40, a.dloads);
    put_figure(&mut bytes, 44, a.leading);
    put_figure(&mut bytes, 48, a.trailing);
    put_figure(&mut bytes, 52, a.longest);
    bytes[56] = u8::from(a.behind);
    bytes[57] = u8::from(a.rule16);
    bytes[58] = u8::from(a.rule17);
    bytes[59] = u8::from(a.rule18);
    put_figure(&mut bytes, 60, a.slowest);
    bytes[64] = setting_byte(a.first[0]);
    bytes[65] = setting_byte(a.first[1]);
    bytes[66] = setting_byte(a.first[2]);
    bytes[67] = setting_byte(a.first[3]);
    bytes[68] = setting_byte(a.first[4]);
    put_figure(&mut bytes, 69, a.vlength);
    put_figure(&mut bytes, 73, a.enginemmass);
    put_figure(&mut bytes, 77, a.wagonvmass);
    bytes[81] = u8::from(a.enginenotm);
    bytes
}
