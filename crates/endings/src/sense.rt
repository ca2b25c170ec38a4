// The four sense bytes.
ghost use Rattle.std.specs.Prelude.{◌≡◌, ◌<◌};
ghost use Rattle.model.specs.Sense.{addressed, sense_of};
ghost use Rattle.model.specs.Premises.{address_limit};

use geometry::params::Lba;

// Whether the code of this number gives an address. By numbers, as `sense_of` promises its answer.
#[tactic(auto, unfolding(model::specs::Sense::addressed))]
fn is_addressed(code: u8) -> bool
    ensures { result ≡ addressed code }
{
    let found = (0x10 <= code) & (code <= 0x15);
    let flagged = (0x19 <= code) & (code <= 0x1F);
    (code == 0x21) | ((code == 0x23) | (found | flagged))
}

// By the code's number: any below 80h, as was promised before there was `Code`.
// A call: in line its tests stand at each place where a code arises.
#[inline(never)]
#[tactic(auto, using(base::proofs::Decide::decide), unfolding(model::specs::Sense::sense_of))]
pub fn sense_of(code: u8, drive: u8, at: Lba) -> [u8; 4]
    requires { (code < 0x80) × (drive < 4) × (at.0 < address_limit) }
    ensures { result ≡ sense_of code drive at }
{
    if is_addressed(code) {
        let [high, middle, low] = at.to_be_bytes();
        return [code + 0x80, 32 * drive + high, middle, low];
    }
    [code, 32 * drive, 0, 0]
}

// Where no code has arisen.
pub fn good_sense(drive: u8) -> [u8; 4]
    requires { drive < 4 }
    ensures { result ≡ sense_of 0 drive (record { 0 = 0 }) }
{
    [0, 32 * drive, 0, 0]
}
