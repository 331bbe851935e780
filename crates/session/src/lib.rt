// Sessions (document 01): a message tagged item by item, where it is never whole in memory. Each step takes the session and gives back
// the next; nothing is held anywhere else.
#![tactic(auto)]

ghost use Rattle.std.specs.Prelude.{◌≡◌, true, [], ◌∷◌, ◌≤◌, ◌<◌, length};
ghost use Rattle.sizes.specs.Sizes.{known};
ghost use Rattle.files.specs.Refusals.{told, first};
ghost use Rattle.files.specs.Arguments.{refuse7};
ghost use Rattle.files.specs.TagFile.{file_size};
ghost use Rattle.session.specs.Session.{closed, session_is_open, session_head, refuse22, refuse23, refuse24, begin_refusal, begin_gives, put_refusal, with_item, put_gives, close_refusal, close_gives, close_writes};

use cipher::{cmac, engine};
use files::refusals::unless;
use files::tagfile::Head;
use files::{Reason, Refused, arguments, tagfile};
use tagging::Keys;

// A session: the message's number, size code, how many items it is for and has taken, the three keys, and the sums of the tags.
#[derive(Clone, Copy, PartialEq, Eq)]
pub struct Session {
    pub number: u32,
    pub code: u64,
    pub count: u64,
    pub taken: u64,
    pub keys: Keys,
    pub sums: [u8; sums::TAGS_MOST],
}

// What a step gives: whether it is done or refused, and the next session. The session stands beside the result and not in it, since document 01
// has each step, a refused one too, take the session and give back the next (clause `session` of begin, put and close).
#[derive(Clone, Copy)]
pub struct Step {
    pub done: Result<(), Refused>,
    pub session: Session,
}

// The closed session.
fn closed() -> Session
    ensures { result ≡ closed }
{
    Session {
        number: 0,
        code: 0,
        count: 0,
        taken: 0,
        keys: Keys {
            item: [0u8; 16],
            tag: [0u8; 16],
            seal: [0u8; 16],
        },
        sums: [0u8; sums::TAGS_MOST],
    }
}

// Begin's refusal: 1, 2 or 4, or none.
#[tactic(auto, using(files::proofs::Passing::checked), unfolding(crate::specs::Session::begin_refusal))]
fn begin_refusal(keys: &[u8], code: u64, n: u64) -> Result<(), Refused>
    ensures { told result ≡ begin_refusal keys.now code n }
{
    arguments::check_keys(keys)?;
    arguments::check_code(code)?;
    arguments::check_count(code, n)
}

// Begins a session for n items of a size code, of the message with this number. Refuses 1, 2, 4, the first that applies, and gives the closed
// session then.
pub fn begin(keys: &[u8], code: u64, n: u64, number: u32) -> Step
    ensures refused { told result.done ≡ begin_refusal keys.now code n }
    ensures session { result.session ≡ begin_gives keys.now code n number }
{
    match begin_refusal(keys, code, n) {
        Ok(()) => Step {
            done: Ok(()),
            session: Session {
                number,
                code,
                count: n,
                taken: 0,
                keys: tagging::keys_in(keys),
                sums: [0u8; sums::TAGS_MOST],
            },
        },
        Err(refused) => Step {
            done: Err(refused),
            session: closed(),
        },
    }
}

impl Session {
    // Whether the session is open.
    fn is_open(self) -> bool
        ensures { result ≡ session_is_open self }
    {
        tagfile::count_fits(self.code, self.count) && self.taken <= self.count
    }

    // Refusal 24, or none.
    fn check_open(self) -> Result<(), Refused>
        ensures { told result ≡ refuse24 self }
    {
        unless(self.is_open(), Reason::Shut, 0)
    }

    // Refusal 22, or none.
    fn check_more(self) -> Result<(), Refused>
        ensures { told result ≡ refuse22 self }
    {
        unless(self.taken < self.count, Reason::Full, 0)
    }

    // Refusal 23, or none.
    fn check_all(self) -> Result<(), Refused>
        ensures { told result ≡ refuse23 self }
    {
        unless(self.taken == self.count, Reason::Early, self.taken as usize)
    }

    // Put's refusal: 24, 22 or 9, or none.
    #[tactic(auto, using(files::proofs::Passing::checked), unfolding(crate::specs::Session::put_refusal))]
    fn put_refusal(self, item: &[u8]) -> Result<(), Refused>
        ensures { told result ≡ put_refusal self item.now }
    {
        self.check_open()?;
        self.check_more()?;
        arguments::check_item(item, 0)
    }

    // The session with one item more, for a put that passes.
    fn with_item(self, item: &[u8]) -> Session
        requires taken_lt_count { self.taken < self.count }
        requires item_len_bound { length item.now ≤ 1024 }
        ensures { result ≡ with_item self item.now }
    {
        let code = self.code;
        let keys = self.keys;
        let key = keys.item;
        let stamp = tagfile::stamp_for(self.number);
        let j = self.taken + 1;
        let t = engine::tables();
        let k = cmac::prepare(&t, key);
        let mut sums = self.sums;
        let mut room = [0u8; keyed::ROOM];
        tagging::add_item(&t, code, k, stamp, &mut sums, j as usize, item, &mut room);
        Session {
            number: self.number,
            code,
            count: self.count,
            taken: j,
            keys,
            sums,
        }
    }

    // Puts the next item. Refuses 24, 22, 9, the first that applies; the session is unchanged then.
    pub fn put(self, item: &[u8]) -> Step
        ensures refused { told result.done ≡ put_refusal self item.now }
        ensures session { result.session ≡ put_gives self item.now }
    {
        match self.put_refusal(item) {
            Ok(()) => Step {
                done: Ok(()),
                session: self.with_item(item),
            },
            Err(refused) => Step {
                done: Err(refused),
                session: self,
            },
        }
    }

    // What the session's tag file says.
    fn head(self) -> Head
        ensures { result ≡ session_head self }
    {
        Head {
            stamp: tagfile::stamp_for(self.number),
            code: self.code,
            count: self.count as usize,
        }
    }

    // Close's refusal: 24, 23 or 7, or none, where so many bytes are lent.
    #[tactic(auto, using(files::proofs::Passing::checked))]
    fn close_refusal(self, room: usize) -> Result<(), Refused>
        ensures { told result ≡ first (refuse24 self ∷ refuse23 self ∷ refuse7 (file_size (session_head self)) room ∷ []) }
    {
        self.check_open()?;
        self.check_all()?;
        arguments::check_room(tagfile::file_size(self.head()), room)
    }

    // Closes the session: writes the tag file of its items to the front of out; the bytes behind stay. Refuses 24, 23, 7, the first that
    // applies; session and out are unchanged then.
    pub fn close(self, out: &mut [u8]) -> Step
        ensures refused { told result.done ≡ close_refusal self out.old }
        ensures session { result.session ≡ close_gives self out.old }
        ensures written { out.new ≡ close_writes self out.old }
    {
        match self.close_refusal(out.len()) {
            Ok(()) => {
                let t = engine::tables();
                tagging::write_file(&t, self.head(), self.keys, &self.sums, out);
                let session = closed();
                Step {
                    done: Ok(()),
                    session,
                }
            }
            Err(refused) => Step {
                done: Err(refused),
                session: self,
            },
        }
    }
}
