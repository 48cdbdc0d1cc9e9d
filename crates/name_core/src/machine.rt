//! The plain machine over lists: one step is what the definition says.
ghost use Rattle.std.specs.Prelude.{◌≡◌, ◌<◌, ◌≤◌, ◌^◌, ◌++◌, ◌∷◌, [], ℕ, false, true, List, IfOk, OnOk, Ok, Err, IsErrOf, length, map, flat_map, option_copied, find, ◌==◌};
ghost use Rattle.std.specs.List.{list_all, list_any};
ghost use Rattle.fh_model.specs.Rows.{rows_of, state_of_rows};
ghost use Rattle.fh_model.specs.State.{opening, meta_of, revision_of, session_is_spent, user_of, home_of, token_user, has_token, tree_in, next_is_spent, space_is_spent, is_spent, grown};
ghost use Rattle.fh_model.specs.Folders.{with_folders, with_folder, unless_taken, folder_in, make_folder};
ghost use Rattle.fh_model.specs.Step.{step, act_on};
ghost use Rattle.fh_model.specs.Stepped.{refused, refusal_of, conflict};
ghost use Rattle.fh_model.specs.Keys.{key_of};
ghost use Rattle.fh_model.specs.TreeOrder.{is_in_order};
ghost use Rattle.fh_model.specs.Trees.{item_at};
ghost use Rattle.name_core.specs.Machine.{Does};

use crate::RowsFault;
use crate::chunks::Chunks;
use crate::ends::end_over;
use crate::nodes::kind_tag;
use crate::places::{is_below_file, path_of};
use crate::row_rules::{counters_in, first_bad};
use crate::rows::{put_namespaces, put_users, spaces_in, users_in};
use crate::shared::Shared;
use crate::space::Space;
use crate::trees::item_at;
use crate::writing::{folders, missed_above, shown_in};
use fh_model::{
    Act, Change, Cmd, Copies, Entry, FileMeta, Item, Items, Name, Names, Next, NoMemory, Refusal,
    Reply, Revision, Row, SPENT_AT, Session, Tags, Text, User, copy_all,
};
use std::alloc::Global;
use std::marker::Model;

/// A state of the machine.
#[derive(Drop)]
pub(crate) struct Machine {
    pub(crate) users: Vec<Shared<User>>,
    pub(crate) namespaces: Vec<Shared<Space>>,
    pub(crate) revisions: Chunks<Revision>,
    pub(crate) sessions: Vec<Shared<Session>>,
    pub(crate) next: Next,
    pub(crate) moment: u64,

    /// The greatest end of a piece, or the greatest number where that is less. Kept, so that no list is read for it.
    pub(crate) end: u64,
}

impl Model for Machine {
    ghost use Rattle.fh_model.specs.State.{State};
    ghost use Rattle.name_core.specs.Machine.{IsMachine};

    ghost Value = { State };

    ghost view = { λ m. record { users = m.users.items; namespaces = m.namespaces.items; revisions = m.revisions; sessions = m.sessions.items; next = m.next; moment = m.moment } };

    ghost invariant = { λ m. IsMachine m.namespaces.items m.revisions m.sessions.items m.end };
}

/// What a command was answered, with the next state where it enters.
#[derive(Drop)]
pub(crate) struct Done {
    pub(crate) next: Option<Machine>,
    pub(crate) reply: Reply,
}

impl Machine {
    /// The state of a new store.
    pub(crate) fn opening(alloc: Global) -> Result<Machine, NoMemory>
        ensures { IfOk result (λ machine. machine ≡ opening) }
    {
        let mut users = Vec::new(alloc);
        let admin = User {
            number: 1,
            home: 1,
            token: None,
        };
        users.push(Shared::new(alloc, admin)?)?;
        let mut namespaces = Vec::new(alloc);
        let home = Space::new(alloc, 1, false, 0, Items::empty(alloc))?;
        namespaces.push(Shared::new(alloc, home)?)?;
        Ok(Machine {
            users,
            namespaces,
            revisions: Chunks::empty(alloc)?,
            sessions: Vec::new(alloc),
            next: Next {
                rev: 1,
                id: 1,
                session: 1,
                user: 2,
                namespace: 2,
            },
            moment: 0,
            end: 0,
        })
    }

    /// The state that rows stand for.
    pub(crate) fn from_rows(alloc: Global, rows: &[Row]) -> Result<Machine, RowsFault>
        ensures state { IfOk result (λ machine. state_of_rows rows.now ≡ Ok machine) }
        ensures bad { (row : ℕ) → IsErrOf result (RowsFault.Bad row) → state_of_rows rows.now ≡ Err row }
    {
        if let Some(row) = first_bad(rows) {
            return Err(RowsFault::Bad { row });
        }
        let Some((next, moment)) = counters_in(rows) else {
            return Err(RowsFault::Bad { row: rows.len() });
        };
        let users = users_in(alloc, rows)?;
        let namespaces = spaces_in(alloc, rows)?;
        Ok(Machine {
            users,
            namespaces,
            revisions: Chunks::empty(alloc)?,
            sessions: Vec::new(alloc),
            next,
            moment,
            end: 0,
        })
    }

    /// The rows of the state.
    pub(crate) fn rows(&self) -> Result<Vec<Row>, NoMemory>
        ensures { IfOk result (λ rows. rows.items ≡ rows_of self.now) }
    {
        let mut rows = Vec::new(self.alloc());
        rows.push(Row::Counters {
            rev: self.next.rev,
            id: self.next.id,
            session: self.next.session,
            user: self.next.user,
            namespace: self.next.namespace,
            moment: self.moment,
        })?;
        put_users(&mut rows, &self.users)?;
        put_namespaces(&mut rows, &self.namespaces)?;
        Ok(rows)
    }

    pub(crate) fn copy(&self) -> Result<Machine, NoMemory>
        ensures { IfOk result (λ copy. copy ≡ self.now) }
    {
        let users = copy_all(self.alloc(), &self.users)?;
        let namespaces = copy_all(self.alloc(), &self.namespaces)?;
        let sessions = copy_all(self.alloc(), &self.sessions)?;
        Ok(Machine {
            users,
            namespaces,
            revisions: self.revisions.copy()?,
            sessions,
            next: self.next,
            moment: self.moment,
            end: self.end,
        })
    }

    /// The last moment.
    pub(crate) fn moment(&self) -> u64
        ensures { result ≡ self.now.moment }
    {
        self.moment
    }

    pub(crate) fn alloc(&self) -> Global {
        *self.users.allocator()
    }

    pub(crate) fn user(&self, number: u64) -> Option<&Shared<User>>
        ensures { option_copied result ≡ user_of self.now number }
    {
        self.users.iter().find(|user| user.number == number)
    }

    /// The number of the home of a user.
    pub(crate) fn home_of(&self, user: u64) -> Option<u64>
        ensures { result ≡ home_of self.now user }
    {
        match self.user(user) {
            Some(user) => Some(user.home),
            None => None,
        }
    }

    fn user_with(&self, token: &[u8]) -> Option<&Shared<User>>
        ensures { option_copied result ≡ find (has_token token.now) self.now.users }
    {
        self.users.iter().find(|user| has_token(user, token))
    }

    /// The number of the user whose token these bytes are.
    pub(crate) fn token_user(&self, token: &[u8]) -> Option<u64>
        ensures { result ≡ token_user self.now token.now }
    {
        match self.user_with(token) {
            Some(user) => Some(user.number),
            None => None,
        }
    }

    /// The version with this rev.
    pub(crate) fn revision(&self, rev: u64) -> Option<&Shared<Revision>>
        ensures { option_copied result ≡ revision_of self.now rev }
    {
        let (full, last) = self.revisions.parts();
        match revision_in_chunks(full, rev) {
            Some(kept) => Some(kept),
            None => revision_in(last, rev),
        }
    }

    pub(crate) fn meta(&self, rev: u64) -> Option<&FileMeta>
        ensures { option_copied result ≡ meta_of self.now rev }
    {
        match self.revision(rev) {
            Some(kept) => Some(&kept.file),
            None => None,
        }
    }

    fn space(&self, number: u64) -> Option<&Shared<Space>>
        ensures { option_copied result ≡ find (λ space. space.number == number) self.now.namespaces }
    {
        self.namespaces
            .iter()
            .find(|space| space.number() == number)
    }

    /// The tree of a namespace, empty where there is no such one.
    pub(crate) fn tree(&self, number: u64) -> &[Shared<Item>]
        ensures items { result.now ≡ tree_in self.now number }
        ensures order { is_in_order result.now ≡ true }
    {
        match self.space(number) {
            Some(space) => space.tree(),
            None => &[],
        }
    }

    /// Whether a number has come to its end.
    fn is_spent(&self) -> bool
        ensures { result ≡ is_spent self.now }
    {
        next_is_spent(&self.next)
            || (any_is_spent(&self.namespaces) || any_session_is_spent(&self.sessions))
    }

    /// The machine with folders at the names that are missed and then at the names.
    fn with_folders(
        &self,
        moment: u64,
        home: u64,
        number: u64,
        mut missed: Vec<Names>,
        names: Names,
    ) -> Result<Done, NoMemory>
        requires id { self.now.next.id < 2 ^ 62 }
        requires lengths { list_any space_is_spent self.now.namespaces ≡ false }
        ensures { IfOk result (λ done. Does (with_folders self.now moment home number missed.items names) self.now done.next done.reply) }
    {
        let told = self.names_in_view(home, number, names.as_slice())?;
        let id = self.next.id + missed.len() as u64;
        missed.push(names)?;
        let changes = folders(self.alloc(), self.next.id, &missed)?;
        let next = Next {
            id: id + 1,
            ..self.next
        };
        Ok(Done {
            next: Some(self.with_changes(moment, number, &changes, next)?),
            reply: Reply::Entry(Entry::Folder { names: told, id }),
        })
    }

    /// The machine at a moment with more changes of a namespace, and with these numbers that come next.
    pub(crate) fn with_changes(
        &self,
        moment: u64,
        number: u64,
        changes: &[Shared<Change>],
        next: Next,
    ) -> Result<Machine, NoMemory>
        requires few { length changes.now ≤ 2 ^ 63 }
        requires lengths { list_any space_is_spent self.now.namespaces ≡ false }
        ensures { IfOk result (λ machine. machine ≡ record self.now { namespaces = map (grown number changes.now) self.now.namespaces; next = next; moment = moment }) }
    {
        let alloc = self.alloc();
        let users = copy_all(alloc, &self.users)?;
        let namespaces = grow_all(alloc, &self.namespaces, number, changes)?;
        let sessions = copy_all(alloc, &self.sessions)?;
        Ok(Machine {
            users,
            namespaces,
            revisions: self.revisions.copy()?,
            sessions,
            next,
            moment,
            end: self.end,
        })
    }

    /// Keeps one version more.
    pub(crate) fn put_revision(&mut self, revision: Revision) -> Result<(), NoMemory>
        ensures { OnOk result (self.new ≡ record self.old { revisions = self.old.revisions ++ revision ∷ [] }) }
    {
        let end = end_over(self.end, revision.file.pieces.as_slice());
        let revision = Shared::new(self.alloc(), revision)?;
        self.revisions = self.revisions.and(revision)?;
        self.end = end;
        Ok(())
    }

    /// The machine with a folder at the names and at those above that are missed.
    fn with_folder(
        &self,
        moment: u64,
        home: u64,
        number: u64,
        names: Names,
    ) -> Result<Done, NoMemory>
        requires id { self.now.next.id < 2 ^ 62 }
        requires lengths { list_any space_is_spent self.now.namespaces ≡ false }
        ensures { IfOk result (λ done. Does (with_folder self.now moment home number names) self.now done.next done.reply) }
    {
        let missed = missed_above(self.alloc(), self.tree(number), names.as_slice())?;
        self.with_folders(moment, home, number, missed, names)
    }

    fn unless_taken(
        &self,
        moment: u64,
        home: u64,
        number: u64,
        names: &[Name],
    ) -> Result<Done, NoMemory>
        requires id { self.now.next.id < 2 ^ 62 }
        requires lengths { list_any space_is_spent self.now.namespaces ≡ false }
        ensures { IfOk result (λ done. Does (unless_taken self.now moment home number names.now (item_at (tree_in self.now number) (key_of names.now))) self.now done.next done.reply) }
    {
        match item_at(self.tree(number), names) {
            Some(item) => self.conflict(kind_tag(&item.node)),
            None => {
                let names = shown_in(self.alloc(), self.tree(number), names)?;
                self.with_folder(moment, home, number, names)
            }
        }
    }

    /// The machine with a folder at names from the root of a namespace.
    fn folder_in(
        &self,
        moment: u64,
        home: u64,
        number: u64,
        names: &[Name],
    ) -> Result<Done, NoMemory>
        requires id { self.now.next.id < 2 ^ 62 }
        requires lengths { list_any space_is_spent self.now.namespaces ≡ false }
        ensures { IfOk result (λ done. Does (folder_in self.now moment home number names.now) self.now done.next done.reply) }
    {
        match names {
            [] => self.conflict("folder"),
            [_, ..] => {
                if is_below_file(self.tree(number), names) {
                    return self.conflict("file_ancestor");
                }
                self.unless_taken(moment, home, number, names)
            }
        }
    }

    fn make_folder(&self, moment: u64, user: u64, path: &Text) -> Result<Done, NoMemory>
        requires id { self.now.next.id < 2 ^ 62 }
        requires lengths { list_any space_is_spent self.now.namespaces ≡ false }
        ensures { IfOk result (λ done. Does (make_folder self.now moment (user_of self.now user) path.now) self.now done.next done.reply) }
    {
        let Some(user) = self.user(user) else {
            return self.refuse(&["user", "not_found"]);
        };
        let arg = path_of(self.alloc(), path)?;
        match self.write_place(user.home, &arg)? {
            Some(place) => { self.folder_in(moment, user.home, place.ns, place.names.as_slice()) }
            None => self.refuse(&["path", "malformed_path"]),
        }
    }

    /// Answers a command, and makes the next state where it enters.
    #[tactic(auto, unfolding(fh_model::specs::Step::act_on))]
    pub(crate) fn step(&self, cmd: &Cmd) -> Result<Done, NoMemory>
        ensures { IfOk result (λ done. Does (step self.now cmd.now) self.now done.next done.reply) }
    {
        if self.is_spent() {
            return self.refuse(&["numbers_spent"]);
        }
        let moment = cmd.at.max(self.moment);
        match &cmd.act {
            Act::MakeFolder { user, path, .. } => self.make_folder(moment, *user, path),
            Act::Upload {
                user,
                commit,
                drafted,
                last,
            } => self.upload(moment, *user, commit, *drafted, last),
        }
    }

    /// The refusal of a place that can't be written.
    fn conflict(&self, tag: &str) -> Result<Done, NoMemory>
        ensures { IfOk result (λ done. Does (conflict self.now tag.now) self.now done.next done.reply) }
    {
        self.refuse(&["path", "conflict", tag])
    }

    /// A refusal with these tags, which changes nothing.
    pub(crate) fn refuse(&self, tags: &[&str]) -> Result<Done, NoMemory>
        ensures { IfOk result (λ done. Does (refused self.now (map (λ tag. tag.now) tags.now)) self.now done.next done.reply) }
    {
        let refusal = refusal_of(self.alloc(), tags)?;
        Ok(Done {
            next: None,
            reply: Reply::Refused(refusal),
        })
    }
}

fn refusal_of(alloc: Global, tags: &[&str]) -> Result<Refusal, NoMemory>
    ensures { IfOk result (λ refusal. Reply.Refused refusal ≡ refusal_of (map (λ tag. tag.now) tags.now)) }
{
    Ok(Refusal {
        tags: tags_of(alloc, tags)?,
        session: None,
        offset: None,
    })
}

pub(crate) fn tags_of(alloc: Global, tags: &[&str]) -> Result<Tags, NoMemory>
    ensures { IfOk result (λ texts. texts ≡ map (λ tag. tag.now) tags.now) }
{
    let mut texts = Vec::new(alloc);
    for tag in tags {
        texts.push(Text::new(String::from_str(alloc, tag)?))?;
    }
    Ok(Items::new(texts))
}

fn next_is_spent(next: &Next) -> bool
    ensures { result ≡ next_is_spent next.now }
{
    SPENT_AT <= next.rev
        || (SPENT_AT <= next.id
            || (SPENT_AT <= next.session || (SPENT_AT <= next.user || SPENT_AT <= next.namespace)))
}

fn any_is_spent(spaces: &[Shared<Space>]) -> bool
    ensures { result ≡ list_any space_is_spent spaces.now }
{
    spaces.iter().any(|space| space.is_spent())
}

/// The number of pieces of a session at which it is spent.
const PIECES_SPENT_AT: usize = 1 << 31;

fn any_session_is_spent(sessions: &[Shared<Session>]) -> bool
    ensures { result ≡ list_any session_is_spent sessions.now }
{
    sessions.iter().any(|session| PIECES_SPENT_AT <= session.pieces.as_slice().len())
}

fn revision_in(revisions: &[Shared<Revision>], rev: u64) -> Option<&Shared<Revision>>
    ensures { option_copied result ≡ find (λ kept. kept.file.rev == rev) revisions.now }
{
    revisions.iter().find(|kept| kept.file.rev == rev)
}

fn revision_in_chunks(
    chunks: &[Shared<Items<Shared<Revision>>>],
    rev: u64,
) -> Option<&Shared<Revision>>
    ensures { option_copied result ≡ find (λ kept. kept.file.rev == rev) (flat_map (λ chunk. chunk) chunks.now) }
{
    for chunk in chunks {
        match revision_in(chunk.as_slice(), rev) {
            Some(kept) => return Some(kept),
            None => {}
        }
    }
    None
}

fn has_token(user: &User, token: &[u8]) -> bool
    ensures { result ≡ has_token token.now user.now }
{
    match &user.token {
        None => false,
        Some(text) => text.as_bytes() == token,
    }
}

/// The namespace, with more changes where it has this number.
fn grow(
    alloc: Global,
    space: &Shared<Space>,
    number: u64,
    changes: &[Shared<Change>],
) -> Result<Shared<Space>, NoMemory>
    ensures { IfOk result (λ space_new. space_new ≡ grown number changes.now space.now) }
{
    if space.number() != number {
        return space.copy();
    }
    Shared::new(alloc, space.grown(changes)?)
}

/// The namespaces, where the one with this number has more changes.
fn grow_all(
    alloc: Global,
    spaces: &[Shared<Space>],
    number: u64,
    changes: &[Shared<Change>],
) -> Result<Vec<Shared<Space>>, NoMemory>
    ensures { IfOk result (λ spaces_new. spaces_new.items ≡ map (grown number changes.now) spaces.now) }
{
    let mut grown = Vec::new(alloc);
    for space in spaces {
        grown.push(grow(alloc, space, number, changes)?)?;
    }
    Ok(grown)
}
