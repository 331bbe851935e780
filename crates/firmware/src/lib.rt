// What the hopper firmware calls from C: Tag, Verify, Report and Replace on pointers with lengths and on numbers. include/gtm.h declares
// them. Each packs what the call says into one number (specs/Packed.antt), and a refused call writes nothing.
#![tactic(auto)]

ghost use Rattle.std.specs.Prelude.{◌≡◌, ℕ, Bool, length, IfOk};
ghost use Rattle.incidence.specs.Report.{meaning};
ghost use Rattle.incidence.specs.declared.Answer.{Answer};
ghost use Rattle.files.specs.Refusals.{refusal, number_of, told};
ghost use Rattle.checks.specs.Refused.{tag_refusal, verify_refusal, replace_refusal};
ghost use Rattle.scheme.specs.Calls.{tag_writes, verify_yes, report_writes, report_answer, report_named, report_rows, replace_writes};
ghost use Rattle.scheme.specs.Claim.{Claim, RowClaim, NameClaim};
ghost use Rattle.firmware.specs.Packed.{packed, packed_yes, packed_report, report_packed, number_in, answer_in, named_in, rows_in, ReadsReport, DriftRead};

use decoding::Decoded;
use files::Refused;
use incidence::Answer;

// A refusal as one number.
#[tactic(auto, unfolding(crate::specs::Packed::packed))]
fn pack(refused: Refused) -> u64
    ensures { result ≡ packed (refusal (number_of refused.reason) refused.place) }
{
    u64::from(refused.reason.number()) + 256 * (refused.place as u64 % 16777216)
}

// What Tag and Replace say as one number.
#[tactic(auto, unfolding(crate::specs::Packed::packed))]
fn pack_done(done: Result<(), Refused>) -> u64
    ensures { result ≡ packed (told done) }
{
    match done {
        Ok(()) => 0,
        Err(refused) => pack(refused),
    }
}

// An answer as its number.
fn ordinal(said: Answer) -> u64
    ensures { result ≡ (meaning said).ordinal }
{
    match said {
        Answer::Intact => 0,
        Answer::Named => 1,
        Answer::Beyond => 2,
    }
}

// What Verify says as one number.
fn pack_verify(said: Result<bool, Refused>) -> u64
    ensures { (yes : Bool) → IfOk said (λ x. x ≡ yes) → result ≡ packed_yes (told said) yes }
{
    match said {
        Ok(true) => 256,
        Ok(false) => 0,
        Err(refused) => pack(refused),
    }
}

// What Report says as one number.
fn pack_report(said: Result<Decoded, Refused>) -> u64
    ensures packed { (answer : Answer) (named rows : ℕ) → IfOk said (λ x. x.answer ≡ answer) → IfOk said (λ x. x.named ≡ named) → IfOk said (λ x. x.rows ≡ rows) → result ≡ packed_report (told said) answer named rows }
    ensures passes { number_in result ≡ 0 → (told said).number ≡ 0 }
{
    match said {
        Ok(found) => {
            256 * ordinal(found.answer)
                + 65536 * (found.named as u64 % 65536)
                + 4294967296 * (found.rows as u64 % 65536)
        }
        Err(refused) => pack(refused),
    }
}

#[unsafe(no_mangle)]
pub extern "C" fn gtm_tag(keys: &[u8], size: u64, message: &[u8], tagfile: &mut [u8]) -> u64
    ensures says { result ≡ packed (tag_refusal keys.now size message.now (length tagfile.old)) }
    ensures written { tagfile.new ≡ tag_writes keys.now size message.now tagfile.old }
{
    pack_done(scheme::tag(keys, size, message, tagfile))
}

#[unsafe(no_mangle)]
pub extern "C" fn gtm_verify(keys: &[u8], message: &[u8], tagfile: &[u8]) -> u64
    ensures says { result ≡ packed_yes (verify_refusal keys.now message.now tagfile.now) (verify_yes keys.now message.now tagfile.now) }
{
    pack_verify(scheme::verify(keys, message, tagfile))
}

#[unsafe(no_mangle)]
pub extern "C" fn gtm_report(keys: &[u8], message: &[u8], tagfile: &[u8], marks: &mut [u8]) -> u64
    ensures says { result ≡ report_packed keys.now message.now tagfile.now marks.old }
    ensures written { marks.new ≡ report_writes keys.now message.now tagfile.now marks.old }
    ensures read { number_in result ≡ 0 → ReadsReport result (report_answer keys.now message.now tagfile.now marks.old) (report_named keys.now message.now tagfile.now marks.old) (report_rows keys.now message.now tagfile.now marks.old) }
    ensures detection { number_in result ≡ 0 → (said : Answer) → (meaning said).ordinal ≡ answer_in result → Claim keys.now message.now tagfile.now marks.new (named_in result) said }
    ensures counting { number_in result ≡ 0 → RowClaim keys.now message.now tagfile.now (rows_in result) }
    ensures naming { number_in result ≡ 0 → NameClaim keys.now message.now tagfile.now marks.new }
    ensures drifting { number_in result ≡ 0 → DriftRead keys.now message.now tagfile.now result }
{
    pack_report(scheme::report(keys, message, tagfile, marks))
}

#[unsafe(no_mangle)]
pub extern "C" fn gtm_replace(
    keys: &[u8],
    tagfile: &[u8],
    number: u64,
    old: &[u8],
    new: &[u8],
    out: &mut [u8],
) -> u64
    ensures says { result ≡ packed (replace_refusal keys.now tagfile.now number old.now new.now (length out.old)) }
    ensures written { out.new ≡ replace_writes keys.now tagfile.now number old.now new.now out.old }
{
    pack_done(scheme::replace(keys, tagfile, number, old, new, out))
}
