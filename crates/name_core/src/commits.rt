//! What a commit of pieces does at its path.
ghost use Rattle.std.specs.Prelude.{◌≡◌, ◌<◌, ◌^◌, ◌+◌, ◌++◌, ◌∷◌, [], false, IfOk, List, map, option_copied};
ghost use Rattle.std.specs.List.{list_any};
ghost use Rattle.fh_model.specs.Commits.{clash, commit_for, commit_in, commit_over, judged, keep, tag_of, turned_down, with_file, write};
ghost use Rattle.fh_model.specs.Content.{size_of};
ghost use Rattle.fh_model.specs.declared.changes.Change.TheVariants.{Put};
ghost use Rattle.fh_model.specs.declared.changes.Node.TheVariants.{File};
ghost use Rattle.fh_model.specs.Folders.{folders};
ghost use Rattle.fh_model.specs.Keys.{key_of};
ghost use Rattle.fh_model.specs.State.{grown, space_is_spent, tree_in};
ghost use Rattle.fh_model.specs.Trees.{item_at};
ghost use Rattle.fh_model.specs.Verdicts.{target_of};
ghost use Rattle.fh_model.specs.WritePlaces.{missed_above, shown_in};
ghost use Rattle.name_core.specs.Committing.{committed_of};

use crate::files::{file_of, hash_on, id_over, next_over, size_of};
use crate::machine::{Machine, tags_of};
use crate::places::{is_below_file, path_of};
use crate::shared::Shared;
use crate::trees::item_at;
use crate::verdicts::verdict;
use crate::writing::{folders_and_file, missed_above, shown_in};
use fh_model::{
    Commit, Copies, Entry, FileMeta, Item, Kind, Name, Names, Next, NoMemory, Node, Pieces,
    Revision, Tags, Verdict,
};

/// What a commit did.
#[derive(Drop)]
pub(crate) enum Committed {
    /// It was refused with these tags.
    Refused(Tags),

    /// The machine with the file, and the file's entry.
    Written(Machine, Entry),
}

fn tag_of(kind: Kind) -> &'static str
    ensures { result.now ≡ tag_of kind }
{
    match kind {
        Kind::File => "file",
        Kind::Folder => "folder",
    }
}

impl Machine {
    fn clash(&self, tag: &str) -> Result<Committed, NoMemory>
        ensures { IfOk result (λ done. committed_of done ≡ clash tag.now) }
    {
        let tags = tags_of(self.alloc(), &["path", "conflict", tag])?;
        Ok(Committed::Refused(tags))
    }

    /// The machine with folders at the names that are missed and with the file at the names.
    fn with_file(
        &self,
        moment: u64,
        home: u64,
        number: u64,
        missed: &[Names],
        names: Names,
        meta: FileMeta,
        next: u64,
    ) -> Result<Committed, NoMemory>
        requires id { self.now.next.id < 2 ^ 62 }
        requires rev { self.now.next.rev < 2 ^ 62 }
        requires lengths { list_any space_is_spent self.now.namespaces ≡ false }
        ensures { IfOk result (λ done. committed_of done ≡ with_file self.now moment home number missed.now names meta next) }
    {
        let told = self.names_in_view(home, number, names.as_slice())?;
        let machine = self.with_version(moment, number, missed, names, &meta, next)?;
        Ok(Committed::Written(machine, Entry::File { names: told, meta }))
    }

    /// The machine with folders at the names that are missed, and with the version of a file at the names.
    fn with_version(
        &self,
        moment: u64,
        number: u64,
        missed: &[Names],
        names: Names,
        meta: &FileMeta,
        next: u64,
    ) -> Result<Machine, NoMemory>
        requires id { self.now.next.id < 2 ^ 62 }
        requires rev { self.now.next.rev < 2 ^ 62 }
        requires lengths { list_any space_is_spent self.now.namespaces ≡ false }
        ensures { IfOk result (λ machine. machine ≡ record self.now {
          namespaces = map (grown number (folders self.now.next.id missed.now ++ Put names (File meta.now) ∷ [])) self.now.namespaces;
          revisions = self.now.revisions ++ record { ns = number; names = names; file = meta.now } ∷ [];
          next = record self.now.next { rev = self.now.next.rev + 1; id = next };
          moment = moment;
        }) }
    {
        let changes = folders_and_file(self.alloc(), self.next.id, missed, &names, meta)?;
        let next = Next {
            rev: self.next.rev + 1,
            id: next,
            ..self.next
        };
        let mut machine = self.with_changes(moment, number, &changes, next)?;
        machine.put_revision(Revision {
            ns: number,
            names,
            file: meta.copy()?,
        })?;
        Ok(machine)
    }

    /// The machine with the file behind the folders that are missed above it.
    fn write_behind(
        &self,
        moment: u64,
        home: u64,
        number: u64,
        missed: &[Names],
        names: Names,
        item: Option<&Shared<Item>>,
        commit: &Commit,
        pieces: &Pieces,
    ) -> Result<Committed, NoMemory>
        requires id { self.now.next.id < 2 ^ 62 }
        requires rev { self.now.next.rev < 2 ^ 62 }
        requires lengths { list_any space_is_spent self.now.namespaces ≡ false }
        requires size { size_of pieces.now < 2 ^ 64 }
        ensures { IfOk result (λ done. committed_of done ≡ write self.now moment home number missed.now names (target_of (option_copied item.entry)) commit.now pieces.now) }
    {
        let fresh = self.next.id + missed.len() as u64;
        let meta = file_of(
            self.alloc(),
            id_over(item, fresh),
            self.next.rev,
            moment,
            commit,
            pieces,
        )?;
        let next = next_over(item, fresh);
        self.with_file(moment, home, number, missed, names, meta, next)
    }

    fn write(
        &self,
        moment: u64,
        home: u64,
        number: u64,
        names: Names,
        item: Option<&Shared<Item>>,
        commit: &Commit,
        pieces: &Pieces,
    ) -> Result<Committed, NoMemory>
        requires id { self.now.next.id < 2 ^ 62 }
        requires rev { self.now.next.rev < 2 ^ 62 }
        requires lengths { list_any space_is_spent self.now.namespaces ≡ false }
        requires size { size_of pieces.now < 2 ^ 64 }
        ensures { IfOk result (λ done. committed_of done ≡ write self.now moment home number (missed_above (tree_in self.now number) names) names (target_of (option_copied item.entry)) commit.now pieces.now) }
    {
        let missed = missed_above(self.alloc(), self.tree(number), names.as_slice())?;
        self.write_behind(moment, home, number, &missed, names, item, commit, pieces)
    }

    /// The machine as it is at the moment, with the file that stands at the names.
    fn keep(
        &self,
        moment: u64,
        home: u64,
        number: u64,
        names: &[Name],
        meta: &FileMeta,
    ) -> Result<Committed, NoMemory>
        ensures { IfOk result (λ done. committed_of done ≡ keep self.now moment home number names.now meta.now) }
    {
        let told = self.names_in_view(home, number, names)?;
        let meta = meta.copy()?;
        let mut machine = self.copy()?;
        machine.moment = moment;
        Ok(Committed::Written(machine, Entry::File { names: told, meta }))
    }

    /// What becomes of a file that has this content already.
    fn same(
        &self,
        moment: u64,
        home: u64,
        number: u64,
        names: &[Name],
        item: Option<&Shared<Item>>,
        commit: &Commit,
        pieces: &Pieces,
    ) -> Result<Committed, NoMemory>
        ensures { IfOk result (λ done. committed_of done ≡ judged self.now moment home number names.now (target_of (option_copied item.entry)) commit.now pieces.now Verdict.Same) }
    {
        let Some(item) = item else {
            return self.clash("file");
        };
        match &item.node {
            Node::File(meta) => self.keep(moment, home, number, names, meta),
            Node::Folder { .. } => self.clash("folder"),
            Node::Mount { .. } => self.clash("folder"),
        }
    }

    /// The commit over what stands at the names.
    fn commit_over(
        &self,
        moment: u64,
        home: u64,
        number: u64,
        names: Names,
        item: Option<&Shared<Item>>,
        commit: &Commit,
        pieces: &Pieces,
    ) -> Result<Committed, NoMemory>
        requires id { self.now.next.id < 2 ^ 62 }
        requires rev { self.now.next.rev < 2 ^ 62 }
        requires lengths { list_any space_is_spent self.now.namespaces ≡ false }
        requires size { size_of pieces.now < 2 ^ 64 }
        ensures { IfOk result (λ done. committed_of done ≡ commit_over self.now moment home number names (target_of (option_copied item.entry)) commit.now pieces.now) }
    {
        let hash = hash_on(self.alloc(), pieces.as_slice())?;
        match verdict(item, commit, size_of(pieces.as_slice()), &hash) {
            Verdict::Write => self.write(moment, home, number, names, item, commit, pieces),
            Verdict::Same => self.same(
                moment,
                home,
                number,
                names.as_slice(),
                item,
                commit,
                pieces,
            ),
            Verdict::Conflict(kind) => self.clash(tag_of(kind)),
        }
    }

    /// The commit at names from the root of a namespace.
    fn commit_in(
        &self,
        moment: u64,
        home: u64,
        number: u64,
        names: &[Name],
        commit: &Commit,
        pieces: &Pieces,
    ) -> Result<Committed, NoMemory>
        requires id { self.now.next.id < 2 ^ 62 }
        requires rev { self.now.next.rev < 2 ^ 62 }
        requires lengths { list_any space_is_spent self.now.namespaces ≡ false }
        requires size { size_of pieces.now < 2 ^ 64 }
        ensures { IfOk result (λ done. committed_of done ≡ commit_in self.now moment home number names.now commit.now pieces.now) }
    {
        match names {
            [] => self.clash("folder"),
            [_, ..] => {
                let tree = self.tree(number);
                if is_below_file(tree, names) {
                    return self.clash("file_ancestor");
                }
                let shown = shown_in(self.alloc(), tree, names)?;
                let item = item_at(tree, names);
                self.commit_over(moment, home, number, shown, item, commit, pieces)
            }
        }
    }

    /// The commit for the user with this home.
    pub(crate) fn commit_for(
        &self,
        moment: u64,
        home: u64,
        commit: &Commit,
        pieces: &Pieces,
    ) -> Result<Committed, NoMemory>
        requires id { self.now.next.id < 2 ^ 62 }
        requires rev { self.now.next.rev < 2 ^ 62 }
        requires lengths { list_any space_is_spent self.now.namespaces ≡ false }
        requires size { size_of pieces.now < 2 ^ 64 }
        ensures { IfOk result (λ done. committed_of done ≡ commit_for self.now moment home commit.now pieces.now) }
    {
        let arg = path_of(self.alloc(), &commit.path)?;
        match self.write_place(home, &arg)? {
            None => {
                let tags = tags_of(self.alloc(), &["path", "malformed_path"])?;
                Ok(Committed::Refused(tags))
            }
            Some(place) => self.commit_in(
                moment,
                home,
                place.ns,
                place.names.as_slice(),
                commit,
                pieces,
            ),
        }
    }
}
