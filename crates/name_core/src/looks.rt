//! What a user's path leads to.
ghost use Rattle.std.specs.Prelude.{◌≡◌, [], IfOk, IsErrOf, Some, option_copied};
ghost use Rattle.fh_model.specs.Places.{place_of};
ghost use Rattle.fh_model.specs.Resolve.{look_in, look_at, look_from, look_of_revision, resolve, malformed, not_found, found};
ghost use Rattle.fh_model.specs.State.{revision_of, user_of};
ghost use Rattle.name_core.specs.Machine.{look_of};

use crate::LookFault;
use crate::machine::Machine;
use crate::places::{is_below_file, path_of};
use crate::shared::Shared;
use crate::trees::item_at;
use fh_model::{Copies, Found, Items, Name, NoMemory, Node, PathArg, Place, Revision, Text};

impl Machine {
    /// The root of a namespace, which is no node.
    fn root(&self, home: u64, number: u64) -> Result<Found, NoMemory>
        ensures { IfOk result (λ there. found there ≡ look_in self.now home number []) }
    {
        Ok(Found {
            place: Place {
                ns: number,
                names: Items::empty(self.alloc()),
            },
            node: None,
            names: self.names_in_view(home, number, &[])?,
        })
    }

    fn look_in(&self, home: u64, number: u64, names: &[Name]) -> Result<Option<Found>, NoMemory>
        ensures { IfOk result (λ there. look_of there ≡ look_in self.now home number names.now) }
    {
        if names.is_empty() {
            return Ok(Some(self.root(home, number)?));
        }
        let tree = self.tree(number);
        if is_below_file(tree, names) {
            return Ok(None);
        }
        let Some(item) = item_at(tree, names) else {
            return Ok(None);
        };
        Ok(Some(Found {
            place: Place {
                ns: number,
                names: item.names.copy()?,
            },
            node: Some(item.node.copy()?),
            names: self.names_in_view(home, number, item.names.as_slice())?,
        }))
    }

    fn look_at(&self, home: u64, arg: &PathArg) -> Result<Option<Found>, NoMemory>
        ensures { IfOk result (λ there. look_of there ≡ look_at self.now home (place_of self.now home arg.now)) }
    {
        match self.place_of(home, arg)? {
            None => Ok(None),
            Some(place) => self.look_in(home, place.ns, place.names.as_slice()),
        }
    }

    /// A revision, where the user sees its namespace.
    fn look_of_revision(
        &self,
        home: u64,
        kept: Option<&Shared<Revision>>,
    ) -> Result<Option<Found>, NoMemory>
        ensures { IfOk result (λ there. look_of there ≡ look_of_revision self.now home (option_copied kept.entry)) }
    {
        let Some(kept) = kept else {
            return Ok(None);
        };
        if self.view_of(home, kept.ns).is_none() {
            return Ok(None);
        }
        Ok(Some(Found {
            place: Place {
                ns: kept.ns,
                names: kept.names.copy()?,
            },
            node: Some(Node::File(kept.file.copy()?)),
            names: self.names_in_view(home, kept.ns, kept.names.as_slice())?,
        }))
    }

    fn look_from(&self, home: u64, arg: &PathArg) -> Result<Option<Found>, NoMemory>
        ensures { IfOk result (λ there. look_of there ≡ look_from self.now home arg.now) }
    {
        match arg {
            PathArg::Names(_) => self.look_at(home, arg),
            PathArg::Id(_) => self.look_at(home, arg),
            PathArg::Rev(rev) => {
                if *rev == 0 {
                    return Ok(None);
                }
                self.look_of_revision(home, self.revision(*rev))
            }
            PathArg::Ns(..) => self.look_at(home, arg),
        }
    }

    /// What the path leads to.
    #[tactic(auto, unfolding(fh_model::specs::Resolve::resolve))]
    pub(crate) fn resolve(&self, user: u64, path: &Text) -> Result<Found, LookFault>
        ensures found { IfOk result (λ there. resolve self.now user path.now ≡ found there) }
        ensures malformed { IsErrOf result LookFault.Malformed → resolve self.now user path.now ≡ malformed }
        ensures missing { IsErrOf result LookFault.NotFound → resolve self.now user path.now ≡ not_found }
    {
        let Some(arg) = path_of(self.alloc(), path)? else {
            return Err(LookFault::Malformed);
        };
        let Some(user) = self.user(user) else {
            return Err(LookFault::NotFound);
        };
        match self.look_from(user.home, &arg)? {
            Some(there) => Ok(there),
            None => Err(LookFault::NotFound),
        }
    }
}
