//! A conversation, as it goes on.
ghost use Rattle.std.specs.Prelude.{◌≡◌, ◌≢◌, IfErr, IfOk, OnOk, length};
ghost use Rattle.lf_sqlite_pages.specs.Apply.{apply};
ghost use Rattle.lf_sqlite_pages.specs.Complete.{complete};
ghost use Rattle.lf_sqlite_pages.specs.Image.{empty_image};
ghost use Rattle.file_view.specs.Endings.{applied, committed};
ghost use Rattle.conversations.specs.Replaying.{Heard, IsAnswered, IsNew, IsOver, Taken, one_more, position_at, zero_image};
ghost use Rattle.conversations.specs.Standing.{Await};
ghost use Rattle.test_base.specs.declared.fault.Fault.TheVariants as fault;

use crate::difference::{Difference, outcome_differs};
use crate::files::Files;
use crate::outcome::Outcome;
use crate::turn::{Message, Start, Turn};
use file_view::Plan;
use fuse_msgs::{BadMessage, Request, decode};
use lf_base::{Name, NoMemory, Pos};
use lf_sqlite_pages::{Change, Image, is_page_size};
use page_checksum::{CHECKSUM_FLAG, page_sum};
use std::alloc::Global;
use std::mem;
use test_base::Fault;

/// The served files of a node, and how many transactions led to their image.
#[derive(Drop)]
pub struct Replay {
    files: Files,
    transactions: u64,
}

impl Replay {
    /// The files of a database that was never written.
    pub fn new(alloc: Global) -> Result<Replay, NoMemory>
        ensures { IfOk result (IsNew empty_image 0) }
    {
        Replay::over(alloc, Image::empty(alloc), 0)
    }

    fn over(alloc: Global, image: Image, transactions: u64) -> Result<Replay, NoMemory>
        ensures { IfOk result (IsNew image transactions) }
    {
        let Ok(name) = Name::read(alloc, b"app") else {
            return Err(NoMemory);
        };
        let position = position_of(&image, transactions);
        let mut files = Files::new(alloc, &name, image)?;
        files.tell(position);
        Ok(Replay {
            files,
            transactions,
        })
    }

    pub fn transactions(&self) -> u64
        ensures { result ≡ self.now.transactions }
    {
        self.transactions
    }

    /// Takes one turn, and says what differs from the record, if anything does.
    pub fn take(&mut self, alloc: Global, turn: &Turn) -> Result<Option<Difference>, Fault>
        ensures turn { IfOk result (λ why. Taken self.old turn.now why self.new) }
        ensures fault { IfErr result (λ why. why ≢ fault.Io) }
    {
        match turn {
            Turn::Start(start) => self.begin(alloc, *start)?,
            Turn::Applied(start) => self.apply(alloc, *start)?,
            Turn::Lost => self.files.drop_uncommitted(),
            Turn::Message(message) => return self.hear(alloc, message),
            Turn::End { link } => self.files.end_session(*link),
        }
        Ok(None)
    }

    /// A conversation begins anew.
    fn begin(&mut self, alloc: Global, start: Start) -> Result<(), NoMemory>
        ensures { OnOk result (IsNew (zero_image start) start.transactions self.new) }
    {
        let new = Replay::over(alloc, zeros(alloc, start)?, start.transactions)?;
        drop(mem::replace(self, new));
        Ok(())
    }

    /// The committed image is another now.
    fn apply(&mut self, alloc: Global, start: Start) -> Result<(), NoMemory>
        ensures { OnOk result (IsOver (zero_image start)
            (applied self.old.files.view (zero_image start).page_size (length (zero_image start).pages)) start.transactions self.new) }
    {
        self.files.apply(zeros(alloc, start)?);
        self.transactions = start.transactions;
        let position = self.position();
        self.files.tell(position);
        Ok(())
    }

    /// Takes a message, and says how what becomes of it differs from the record.
    fn hear(&mut self, alloc: Global, message: &Message) -> Result<Option<Difference>, Fault>
        ensures heard { IfOk result (λ why. Heard self.old message.now why self.new) }
        ensures fault { IfErr result (λ why. why ≢ fault.Io) }
    {
        let request = match decode(alloc, message.request.as_slice()) {
            Ok(request) => request,
            Err(BadMessage::NoMemory) => return Err(Fault::NoMemory),
            Err(_) => return Ok(Some(Difference::Request)),
        };
        let outcome = self.answer(alloc, message, &request)?;
        let position = self.position();
        Ok(outcome_differs(alloc, &outcome, position, request.unique, message)?)
    }

    fn answer(
        &mut self,
        alloc: Global,
        message: &Message,
        request: &Request,
    ) -> Result<Outcome, Fault>
        ensures answered { IfOk result (λ outcome. IsAnswered self.old message.now request.now outcome self.new) }
        ensures fault { IfErr result (λ why. why ≢ fault.Io) }
    {
        match self.files.ask(alloc, message.link, message.role, request) {
            Ok(Plan::Reply(reply)) => Ok(Outcome::without_commit(Some(reply))),
            Ok(Plan::Silent) => Ok(Outcome::without_commit(None)),
            Ok(Plan::Commit { reply, change }) => {
                let change = self.commit(change)?;
                Ok(Outcome {
                    reply: Some(reply),
                    change: Some(change),
                })
            }
            Err(fault) => Ok(Outcome::refused(fault)),
        }
    }

    /// Commits the change for which a request waits, and gives it back complete.
    fn commit(&mut self, change: Change) -> Result<Change, Fault>
        requires { Await self.old.files.image self.old.files.view change }
        ensures whole { IfOk result (λ whole. whole ≡ complete self.old.files.image change) }
        ensures over { OnOk result (IsOver (apply self.old.files.image change) (committed self.old.files.view) (one_more self.old.transactions) self.new) }
        ensures fault { IfErr result (λ why. why ≢ fault.Io) }
    {
        let before = self.files.image().commit();
        self.files.commit(&change)?;
        self.transactions = self.transactions.saturating_add(1);
        let position = self.position();
        self.files.tell(position);
        let mut change = change;
        change.complete(before)?;
        Ok(change)
    }

    /// Where the database stands.
    fn position(&self) -> Pos
        ensures { result ≡ position_at self.now.files.image self.now.transactions }
    {
        position_of(self.files.image(), self.transactions)
    }
}

/// An image of pages of zeros. It has none where the page size is none of SQLite's.
fn zeros(alloc: Global, start: Start) -> Result<Image, NoMemory>
    ensures { IfOk result (λ image. image ≡ zero_image start) }
{
    let mut image = Image::empty(alloc);
    if start.pages != 0 && is_page_size(start.page_size) {
        let mut change = Change::new(alloc, start.page_size, start.pages);
        change.complete(0)?;
        image.apply(&change)?;
    }
    Ok(image)
}

/// Where a database stands to which so many transactions led.
fn position_of(image: &Image, transactions: u64) -> Pos
    ensures { result ≡ position_at image.now transactions }
{
    let mut sum = 0;
    for before in 0..image.commit() {
        let n = before + 1;
        sum ^= page_sum(n, image.page(n));
    }
    Pos {
        txid: transactions,
        sum: sum | CHECKSUM_FLAG,
    }
}
