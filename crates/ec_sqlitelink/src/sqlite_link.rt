//! The link.
ghost use Rattle.std.specs.Prelude.{◌≡◌, ◌≤◌, false, IfOk, OnErr, if◌then◌else◌};
ghost use Rattle.ec_base.specs.Causes.{Rose, one_more};
ghost use Rattle.ec_link.specs.Link.{talk_after};
ghost use Rattle.ec_sqlitelink.specs.Untold.{untold};
ghost use Rattle.ec_link.specs.Reply.{is_broken};

use crate::refusal::Stop;
use crate::session::{Answer, Location, Session};
use ec_base::OutOfMemory;
use ec_link::{Link, Reply, Request, Tx};
use std::alloc::Global;
use std::marker::Model;

/// A link to a database of SQLite, in memory or in a file. The database is opened at the first request, since a link that
/// is ready gets no request to connect.
///
/// What a program sends is run as SQL of SQLite. `$n` outside of words, quotes and comments is the parameter n, which is
/// bound as a text or as NULL. DECLARE, FETCH and CLOSE of a cursor are answered from the whole answer of its query. A
/// column has the code 4 where its values are whole numbers, and 12 where they are texts or bytes; an answer with a float
/// is refused. A key that is there already is refused with the state 23505, and everything else with XX000.
///
/// Where the disk doesn't give or take what is needed, the count of faults rises and the answer is `Broken`. So it is at
/// each request where the path of the file is not UTF-8. After want of memory a statement may have been done, and its
/// transaction may be rolled back.
///
/// It tells no talk.
#[derive(Drop)]
pub struct SqliteLink {
    session: Session,
    faults: u64,
}

impl Model for SqliteLink {
    ghost use Rattle.std.specs.Prelude.{ℕ};
    ghost use Rattle.std.specs.Coded.{coded_ℕ};

    ghost Value = { ℕ };

    ghost coded = { coded_ℕ };

    ghost view = { λ it. it.faults };
}

impl SqliteLink {
    /// A link to an empty database in memory, which is gone with the link.
    pub fn memory(alloc: Global) -> Result<SqliteLink, OutOfMemory>
        ensures { IfOk result (λ link. link ≡ 0) }
    {
        Ok(SqliteLink {
            session: Session::new(alloc, Location::Memory),
            faults: 0,
        })
    }

    /// A link to the database in the file at that path, which is made where there is none. It keeps the runtime, by
    /// which the file is opened.
    pub fn file(rt: &HostRuntime, alloc: Global, path: &[u8]) -> Result<SqliteLink, OutOfMemory>
        ensures { IfOk result (λ link. link ≡ 0) }
    {
        Ok(SqliteLink {
            session: Session::new(alloc, location(rt, alloc, path)?),
            faults: 0,
        })
    }
}

// The file at a path.
fn location(rt: &HostRuntime, alloc: Global, path: &[u8]) -> Result<Location, OutOfMemory> {
    match std::str::from_utf8(path) {
        Ok(path) => Ok(Location::File(*rt, String::from_str(alloc, path)?)),
        Err(_) => Ok(Location::Nowhere),
    }
}

// What is answered where a request is done.
fn reply(answer: Answer, tx: Tx) -> Reply
    ensures { is_broken result ≡ false }
{
    match answer {
        Answer::Connected => Reply::Connected,
        Answer::Rows(table) => Reply::Rows {
            table,
            tx,
            notice: false,
        },
        Answer::Done(count) => Reply::Done {
            count,
            tx,
            notice: false,
        },
    }
}

impl Link for SqliteLink {
    ghost use Rattle.ec_sqlitelink.specs.Untold.{untold};

    ghost talk = { λ _. untold };

    ghost faults = { λ it. it };

    fn ask(&mut self, req: &Request) -> Result<Reply, OutOfMemory>
        ensures told { IfOk result (λ reply. untold ≡ talk_after untold req.now reply) }
        ensures err { OnErr result (untold ≡ untold) }
        ensures later { self.old ≤ self.new }
        ensures broken { IfOk result (λ reply. reply ≡ Reply.Broken → Rose self.old self.new) }
        ensures counted { IfOk result
            (λ reply. self.new ≡ (if is_broken reply then one_more self.old else self.old)) }
        ensures uncounted { OnErr result (self.new ≡ self.old) }
    {
        match self.session.answer(req) {
            Ok(answer) => Ok(reply(answer, self.session.tx())),
            Err(Stop::Refused(refusal)) => Ok(Reply::Refused {
                state: refusal.state(),
                message: refusal.message(self.session.allocator())?,
                tx: self.session.tx(),
            }),
            Err(Stop::Disk) => {
                self.faults = self.faults.saturating_add(1);
                Ok(Reply::Broken)
            }
            Err(Stop::OutOfMemory) => Err(OutOfMemory),
        }
    }
}
