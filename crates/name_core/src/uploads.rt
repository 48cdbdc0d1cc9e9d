//! How an upload becomes a file, or leaves its data in a session.
ghost use Rattle.std.specs.Prelude.{◌≡◌, ◌<◌, ◌^◌, ◌+◌, ◌++◌, ◌∷◌, [], false, IfOk, OnOk, List};
ghost use Rattle.std.specs.List.{list_any};
ghost use Rattle.fh_model.specs.Content.{size_of};
ghost use Rattle.fh_model.specs.Pieces.{numbered};
ghost use Rattle.fh_model.specs.State.{space_is_spent, user_of};
ghost use Rattle.fh_model.specs.Uploads.{session_of, upload, upload_pieces, with_session};
ghost use Rattle.name_core.specs.Machine.{Does};

use crate::commits::Committed;
use crate::ends::end_over;
use crate::files::{has_gap, numbered, pieces_of, size_of};
use crate::machine::{Done, Machine};
use crate::shared::Shared;
use fh_model::{Commit, NoMemory, Piece, Pieces, Refusal, Reply, Session, Tags, User};

impl Machine {
    /// A closed session that holds all the data.
    fn session_of(&self, user: u64, moment: u64, pieces: &Pieces) -> Result<Session, NoMemory>
        requires { size_of pieces.now < 2 ^ 64 }
        ensures { IfOk result (λ session. session ≡ session_of self.now.next.session user moment pieces.now) }
    {
        Ok(Session {
            number: self.next.session,
            user,
            concurrent: false,
            closed: true,
            start: moment,
            size: size_of(pieces.as_slice()),
            pieces: numbered(self.alloc(), pieces.as_slice())?,
        })
    }

    /// Keeps one session more, which holds these pieces.
    fn put_session(&mut self, session: Session, pieces: &Pieces) -> Result<(), NoMemory>
        requires session { self.old.next.session < 2 ^ 62 }
        requires pieces { session.pieces ≡ numbered 0 pieces.now }
        ensures { OnOk result (self.new ≡ record self.old { sessions = self.old.sessions ++ session ∷ []; next = record self.old.next { session = self.old.next.session + 1 } }) }
    {
        let session = Shared::new(self.alloc(), session)?;
        self.sessions.push(session)?;
        self.end = end_over(self.end, pieces.as_slice());
        self.next.session += 1;
        Ok(())
    }

    /// The refusal of an upload, whose data is kept in a session.
    fn with_session(
        &self,
        moment: u64,
        user: u64,
        pieces: &Pieces,
        tags: Tags,
    ) -> Result<Done, NoMemory>
        requires session { self.now.next.session < 2 ^ 62 }
        requires size { size_of pieces.now < 2 ^ 64 }
        ensures { IfOk result (λ done. Does (with_session self.now moment user pieces.now tags) self.now done.next done.reply) }
    {
        let session = self.session_of(user, moment, pieces)?;
        let mut next = self.copy()?;
        next.put_session(session, pieces)?;
        next.moment = moment;
        let refusal = Refusal {
            tags,
            session: Some(self.next.session),
            offset: None,
        };
        Ok(Done {
            next: Some(next),
            reply: Reply::Refused(refusal),
        })
    }

    fn upload_pieces(
        &self,
        moment: u64,
        user: &User,
        commit: &Commit,
        drafted: u32,
        pieces: &Pieces,
    ) -> Result<Done, NoMemory>
        requires id { self.now.next.id < 2 ^ 62 }
        requires rev { self.now.next.rev < 2 ^ 62 }
        requires session { self.now.next.session < 2 ^ 62 }
        requires lengths { list_any space_is_spent self.now.namespaces ≡ false }
        requires size { size_of pieces.now < 2 ^ 64 }
        ensures { IfOk result (λ done. Does (upload_pieces self.now moment user.now commit.now drafted pieces.now) self.now done.next done.reply) }
    {
        if has_gap(drafted, pieces.as_slice()) {
            return self.refuse(&["draft_gap"]);
        }
        match self.commit_for(moment, user.home, commit, pieces)? {
            Committed::Refused(tags) => self.with_session(moment, user.number, pieces, tags),
            Committed::Written(machine, entry) => Ok(Done {
                next: Some(machine),
                reply: Reply::Entry(entry),
            }),
        }
    }

    pub(crate) fn upload(
        &self,
        moment: u64,
        user: u64,
        commit: &Commit,
        drafted: u32,
        last: &Option<Piece>,
    ) -> Result<Done, NoMemory>
        requires id { self.now.next.id < 2 ^ 62 }
        requires rev { self.now.next.rev < 2 ^ 62 }
        requires session { self.now.next.session < 2 ^ 62 }
        requires lengths { list_any space_is_spent self.now.namespaces ≡ false }
        ensures { IfOk result (λ done. Does (upload self.now moment (user_of self.now user) commit.now drafted last.now) self.now done.next done.reply) }
    {
        let Some(user) = self.user(user) else {
            return self.refuse(&["user", "not_found"]);
        };
        let pieces = pieces_of(self.alloc(), last)?;
        self.upload_pieces(moment, user, commit, drafted, &pieces)
    }
}
