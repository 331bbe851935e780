// The calls of document 01 on whole messages: Tag, Verify, Report and Replace (000, section 4.3). Any arguments, of any length and value:
// each call does its work or refuses by number, and a refused call leaves the buffer that it was lent as it was.
#![tactic(auto)]

ghost use Rattle.std.specs.Prelude.{◌≡◌, ◌++◌, ◌*◌, ◌≤◌, length, drop, IfOk, OnOk};
ghost use Rattle.blocks.specs.Block.{same};
ghost use Rattle.incidence.specs.Report.{named, number_named, disagreeing, answer};
ghost use Rattle.sizes.specs.Sizes.{family_of};
ghost use Rattle.stamp.specs.Front.{version_of};
ghost use Rattle.files.specs.Refusals.{told};
ghost use Rattle.files.specs.Message.{items_at, item_count, item, Sound};
ghost use Rattle.files.specs.TagFile.{file_size, code_of, count_of, head_of, tags_in, Formed};
ghost use Rattle.sums.specs.Adding.{Holds};
ghost use Rattle.decoding.specs.Decoding.{agrees_from, marks_of};
ghost use Rattle.tagging.specs.Tagging.{keys_in, file_of, tag_file, tag_head};
ghost use Rattle.checks.specs.Refused.{tag_refusal, verify_refusal, report_refusal, replace_refusal};
ghost use Rattle.checks.specs.Passed.{Taggable, Comparable, Replaceable};
ghost use Rattle.scheme.specs.Calls.{tag_writes, stamp_in, tags_for, verify_yes, sum_tagged, tag_difference, report_writes, report_answer, report_named, report_rows, replaced_sum, replace_writes};
ghost use Rattle.scheme.specs.Claim.{Claim, RowClaim, NameClaim, DriftClaim};

use cipher::engine::Tables;
use cipher::{cmac, engine};
use decoding::Decoded;
use files::{Refused, message, tagfile};
use stamp::Stamp;
use tagging::Keys;

// Writes the tag file of a message that is not refused to the front of out.
fn write_tag_file(keys: &[u8], code: u64, s: &[u8], out: &mut [u8])
    requires { Taggable keys.now code s.now (length out.old) }
    ensures { out.new ≡ tag_file (keys_in keys.now) (tag_head code s.now) (item s.now) ++ drop (file_size (tag_head code s.now)) out.old }
{
    let t = engine::tables();
    let k = tagging::keys_in(keys);
    let head = tagging::head_for(code, s);
    let mut sums = [0u8; sums::TAGS_MOST];
    tagging::add_items(&t, head.code, k, head.stamp, s, &mut sums);
    tagging::write_file(&t, head, k, &sums, out);
}

// Tag: writes the tag file of a message for a size code to the front of out; the bytes behind stay.
// Refuses 1, 2, 3, 4, 5, 7, the first that applies; out is then as it was.
pub fn tag(keys: &[u8], code: u64, message: &[u8], out: &mut [u8]) -> Result<(), Refused>
    ensures refused { told result ≡ tag_refusal keys.now code message.now (length out.old) }
    ensures written { out.new ≡ tag_writes keys.now code message.now out.old }
{
    checks::tag_refusal(keys, code, message, out.len())?;
    write_tag_file(keys, code, message, out);
    Ok(())
}

// What the items of a message are hashed under in a version. (What a call has checked, its helpers ask for by the records of checks, Passed.antt,
// which the laws about its result cite.)
fn stamp_in(version: u16, s: &[u8]) -> Stamp
    requires { items_at (version_of s.now) ≤ length s.now }
    ensures { result ≡ stamp_in version s.now }
{
    let own = stamp::stamp_of(s);
    Stamp {
        version,
        number: own.number,
    }
}

// Whether the tags of a message that is not refused equal the file's.
fn tags_equal(t: &Tables, keys: &[u8], s: &[u8], f: &[u8]) -> bool
    requires comparable { Comparable keys.now s.now f.now }
    ensures { result ≡ same (tags_for (keys_in keys.now) (version_of f.now) (code_of f.now) s.now) (tags_in f.now) }
{
    let k = tagging::keys_in(keys);
    let tag_key = k.tag;
    let head = tagfile::head_of(f);
    let written = head.stamp;
    let n = sizes::tags(head.code);
    let end = 16 * n;
    let mut sums = [0u8; sums::TAGS_MOST];
    tagging::add_items(t, head.code, k, stamp_in(written.version, s), s, &mut sums);
    let mut tags = [0u8; sums::TAGS_MOST];
    keyed::write_tags(t, engine::expand(t, tag_key), &sums, n, &mut tags);
    &tags[0..end] == tagfile::tags_in(f)
}

// Verify: yes when the message's tags equal the file's, else no.
// Refuses 1, 3, 5, 6, 20, 21, 25, the first that applies.
pub fn verify(keys: &[u8], message: &[u8], file: &[u8]) -> Result<bool, Refused>
    ensures refused { told result ≡ verify_refusal keys.now message.now file.now }
    ensures yes { IfOk result (λ yes. yes ≡ verify_yes keys.now message.now file.now) }
{
    let t = engine::tables();
    checks::verify_refusal(&t, keys, message, file)?;
    Ok(tags_equal(&t, keys, message, file))
}

// Sums are lent as slices, of all tags for Tag and of all rows for Report, so each function asks for the room that it writes.

// Fills the front of sums with those that the tags of a file were made of; what is behind them stays.
fn read_sums(t: &Tables, keys: Keys, f: &[u8], sums: &mut [u8])
    requires formed { Formed f.now }
    requires f_in_bounds { 16 * (family_of (code_of f.now)).tags ≤ length sums.old }
    ensures { Holds (family_of (code_of f.now)).tags (sum_tagged keys f.now) sums.old sums.new }
{
    let key = keys.tag;
    let head = tagfile::head_of(f);
    let n = sizes::tags(head.code);
    keyed::write_sums(t, engine::expand(t, key), tagfile::tags_in(f), n, sums);
}

// Writes the file with the old item's hash and the new one's added to the sums of the item's tagged rows, sealed, to the front of out.
fn write_replaced(t: &Tables, keys: &[u8], f: &[u8], j: u64, old: &[u8], new: &[u8], out: &mut [u8])
    requires replaceable { Replaceable keys.now f.now j old.now new.now (length out.old) }
    ensures { out.new ≡ file_of (keys_in keys.now) (head_of f.now) (replaced_sum (keys_in keys.now) f.now j old.now new.now) ++ drop (file_size (head_of f.now)) out.old }
{
    let k = tagging::keys_in(keys);
    let item_key = k.item;
    let head = tagfile::head_of(f);
    let mut sums = [0u8; sums::TAGS_MOST];
    read_sums(t, k, f, &mut sums);
    let m = cmac::prepare(t, item_key);
    let mut room = [0u8; keyed::ROOM];
    tagging::add_item(
        t, head.code, m, head.stamp, &mut sums, j as usize, old, &mut room,
    );
    tagging::add_item(
        t, head.code, m, head.stamp, &mut sums, j as usize, new, &mut room,
    );
    tagging::write_file(t, head, k, &sums, out);
}

// Replace: writes the tag file with item j's old bytes replaced by new ones, in the file's version, to the front of out; the bytes
// behind stay.
// Refuses 1, 6, 20, 8, 9, 7, the first that applies; out is then as it was.
pub fn replace(
    keys: &[u8],
    file: &[u8],
    j: u64,
    old: &[u8],
    new: &[u8],
    out: &mut [u8],
) -> Result<(), Refused>
    ensures refused { told result ≡ replace_refusal keys.now file.now j old.now new.now (length out.old) }
    ensures written { out.new ≡ replace_writes keys.now file.now j old.now new.now out.old }
{
    let t = engine::tables();
    checks::replace_refusal(&t, keys, file, j, old, new, out.len())?;
    write_replaced(&t, keys, file, j, old, new, out);
    Ok(())
}

// Fills the front of sums with the differences of the tags; what is behind them stays.
fn read_differences(t: &Tables, keys: Keys, s: &[u8], f: &[u8], sums: &mut [u8])
    requires sound { Sound s.now }
    requires formed { Formed f.now }
    requires f_in_bounds { 16 * (family_of (code_of f.now)).tags ≤ length sums.old }
    ensures { Holds (family_of (code_of f.now)).tags (tag_difference keys s.now f.now) sums.old sums.new }
{
    let head = tagfile::head_of(f);
    let written = head.stamp;
    read_sums(t, keys, f, sums);
    tagging::add_items(t, head.code, keys, stamp_in(written.version, s), s, sums);
}

// Refuses as Report does, or fills the front of sums with the differences of the tags; what is behind them stays. The tables are taken here
// and are gone when it returns, before the rows are decoded.
fn compare(keys: &[u8], s: &[u8], f: &[u8], room: usize, sums: &mut [u8]) -> Result<(), Refused>
    requires { 16 * (family_of (code_of f.now)).tags ≤ length sums.old }
    ensures refused { told result ≡ report_refusal keys.now s.now f.now room }
    ensures differences { OnOk result (Holds (family_of (code_of f.now)).tags (tag_difference (keys_in keys.now) s.now f.now) sums.old sums.new) }
{
    let t = engine::tables();
    checks::report_refusal(&t, keys, s, f, room)?;
    read_differences(&t, tagging::keys_in(keys), s, f, sums);
    Ok(())
}

// Decodes the items of a message from the differences of the tags of a file, which stand at the front of sums.
fn decode_files(s: &[u8], f: &[u8], sums: &mut [u8], marks: &mut [u8]) -> Decoded
    requires sound { Sound s.now }
    requires formed { Formed f.now }
    requires s_value { (item_count s.now ≡ count_of f.now) × (item_count s.now ≤ length marks.old) }
    requires f_in_bounds { 16 * (family_of (code_of f.now)).rows ≤ length sums.old }
    ensures written { marks.new ≡ marks_of (named (family_of (code_of f.now)) (agrees_from (family_of (code_of f.now)) sums.old)) (item_count s.now) ++ drop (item_count s.now) marks.old }
    ensures answer { result.answer ≡ answer (family_of (code_of f.now)) (agrees_from (family_of (code_of f.now)) sums.old) (item_count s.now) }
    ensures named { result.named ≡ number_named (family_of (code_of f.now)) (agrees_from (family_of (code_of f.now)) sums.old) (item_count s.now) }
    ensures rows { result.rows ≡ disagreeing (agrees_from (family_of (code_of f.now)) sums.old) (family_of (code_of f.now)).rows }
{
    let head = tagfile::head_of(f);
    decoding::decode_tags(head.code, message::item_count(s), sums, marks)
}

// Report: writes a mark for each item of the message, 1 named and 0 cleared, to the front of marks; the bytes behind stay. Says its answer, how
// many items it named, and how many rows disagree.
// Refuses as Verify, then 7, the first that applies; marks are then as they were.
// The clause `detection` is demand 3; `counting` says what the number of rows means on a plane (document 02, 2.2), `naming` what the marks
// mean at every size, however many they are (2.13), and `drifting` how far at most the number of rows is from that of another report with
// the same keys against the same file (2.14).
pub fn report(
    keys: &[u8],
    message: &[u8],
    file: &[u8],
    marks: &mut [u8],
) -> Result<Decoded, Refused>
    ensures refused { told result ≡ report_refusal keys.now message.now file.now (length marks.old) }
    ensures written { marks.new ≡ report_writes keys.now message.now file.now marks.old }
    ensures answer { IfOk result (λ found. found.answer ≡ report_answer keys.now message.now file.now marks.old) }
    ensures named { IfOk result (λ found. found.named ≡ report_named keys.now message.now file.now marks.old) }
    ensures rows { IfOk result (λ found. found.rows ≡ report_rows keys.now message.now file.now marks.old) }
    ensures detection { IfOk result (λ found. Claim keys.now message.now file.now marks.new found.named found.answer) }
    ensures counting { IfOk result (λ found. RowClaim keys.now message.now file.now found.rows) }
    ensures naming { OnOk result (NameClaim keys.now message.now file.now marks.new) }
    ensures drifting { IfOk result (λ found. DriftClaim keys.now message.now file.now found.rows) }
{
    let mut sums = [0u8; sums::ROWS_MOST];
    compare(keys, message, file, marks.len(), &mut sums)?;
    Ok(decode_files(message, file, &mut sums, marks))
}
