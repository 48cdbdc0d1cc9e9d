ghost use Rattle.std.specs.Prelude.{◌≡◌, ◌⊎◌, ℕ, true, IfOk, IsErrOf, Ok, Err};
ghost use Rattle.byte_formats.specs.Spelling.{Spells, IsFirstBad, whole_at};
ghost use Rattle.byte_formats.specs.Given.{Gives};
ghost use Rattle.byte_formats.specs.declared.fault.CodecFault.TheVariants.{Bad, NoMemory};
ghost use Rattle.fh_model.specs.declared.commands.Cmd.{Cmd};
ghost use Rattle.cmd_codec.specs.Commands.{act, command, commit_format, is_kind, make_folder, mode_format, upload};

use crate::kinds::{MAKE_FOLDER, UPLOAD, is_kind};
use byte_formats::{CodecFault, Field, Stop, moment_at, optional_moment_at};
use fh_model::{Act, Cmd, Commit, Mode, Piece, Text};
use std::alloc::Global;

#[tactic(auto, unfolding(crate::specs::Commands::make_folder))]
fn make_folder_at(alloc: Global, bytes: &[u8]) -> Result<(Act, &[u8]), Stop>
    ensures { Gives (λ x. (x.0, x.1.now)) result (make_folder.read bytes.now) }
{
    let (user, rest) = u64::read(alloc, bytes)?;
    let (path, rest) = Text::read(alloc, rest)?;
    let (rename, rest) = bool::read(alloc, rest)?;
    Ok((Act::MakeFolder { user, path, rename }, rest))
}

#[tactic(auto, unfolding(crate::specs::Commands::mode_at))]
fn mode_at(alloc: Global, bytes: &[u8]) -> Result<(Mode, &[u8]), Stop>
    ensures given { Gives (λ x. (x.0, x.1.now)) result (mode_format.read bytes.now) }
    ensures memory { IsErrOf result Stop.NoMemory → ⊥ }
{
    match bytes {
        [] => Err(Stop::Bad(0)),
        [0, rest @ ..] => Ok((Mode::Add, rest)),
        [1, rest @ ..] => Ok((Mode::Overwrite, rest)),
        [2, rest @ ..] => {
            let (rev, rest) = u64::read(alloc, rest)?;
            Ok((Mode::Update(rev), rest))
        }
        [_, ..] => Err(Stop::Bad(bytes.len())),
    }
}

#[tactic(auto, unfolding(crate::specs::Commands::commit_format))]
fn commit_at(alloc: Global, bytes: &[u8]) -> Result<(Commit, &[u8]), Stop>
    ensures { Gives (λ x. (x.0, x.1.now)) result (commit_format.read bytes.now) }
{
    let (path, rest) = Text::read(alloc, bytes)?;
    let (mode, rest) = mode_at(alloc, rest)?;
    let (rename, rest) = bool::read(alloc, rest)?;
    let (strict, rest) = bool::read(alloc, rest)?;
    let (client, rest) = optional_moment_at(alloc, rest)?;
    let commit = Commit {
        path,
        mode,
        rename,
        strict,
        client,
    };
    Ok((commit, rest))
}

#[tactic(auto, unfolding(crate::specs::Commands::upload))]
fn upload_at(alloc: Global, bytes: &[u8]) -> Result<(Act, &[u8]), Stop>
    ensures { Gives (λ x. (x.0, x.1.now)) result (upload.read bytes.now) }
{
    let (user, rest) = u64::read(alloc, bytes)?;
    let (commit, rest) = commit_at(alloc, rest)?;
    let (drafted, rest) = u32::read(alloc, rest)?;
    let (last, rest) = <Option<Piece>>::read(alloc, rest)?;
    let act = Act::Upload {
        user,
        commit,
        drafted,
        last,
    };
    Ok((act, rest))
}

/// Takes the fields of an act of this kind.
fn act_at(alloc: Global, kind: u8, bytes: &[u8]) -> Result<(Act, &[u8]), Stop>
    requires { is_kind kind ≡ true }
    ensures { Gives (λ x. (x.0, x.1.now)) result ((act kind).read bytes.now) }
{
    match kind {
        MAKE_FOLDER => make_folder_at(alloc, bytes),
        UPLOAD => upload_at(alloc, bytes),
        _ => unreachable!(),
    }
}

#[tactic(auto, unfolding(crate::specs::Commands::command))]
fn command_at(alloc: Global, bytes: &[u8]) -> Result<(Cmd, &[u8]), Stop>
    ensures { Gives (λ x. (x.0, x.1.now)) result (command.read bytes.now) }
{
    match bytes {
        [] => Err(Stop::Bad(0)),
        [kind, rest @ ..] => {
            if !is_kind(*kind) {
                return Err(Stop::Bad(bytes.len()));
            }
            let (seat, rest) = u64::read(alloc, rest)?;
            let (at, rest) = moment_at(alloc, rest)?;
            let (act, rest) = act_at(alloc, *kind, rest)?;
            Ok((Cmd { seat, at, act }, rest))
        }
    }
}

/// Takes a command that ends where the bytes do.
fn whole_command(alloc: Global, bytes: &[u8]) -> Result<Cmd, Stop>
    ensures { Gives (λ cmd. cmd) result (whole_at command.read bytes.now) }
{
    let (cmd, rest) = command_at(alloc, bytes)?;
    if !rest.is_empty() {
        return Err(Stop::Bad(rest.len()));
    }
    Ok(cmd)
}

/// The command that all of the bytes spell.
///
/// `Bad` comes just where they spell none, with the place of the first bad byte, and `NoMemory` where there is no
/// room for the command.
pub fn decode(alloc: Global, bytes: &[u8]) -> Result<Cmd, CodecFault>
    // What is given is spelled so.
    ensures found { IfOk result (λ cmd. Spells command bytes.now cmd) }
    // What is spelled so is given, unless memory runs out.
    ensures only { (cmd : Cmd) → Spells command bytes.now cmd → (result ≡ Ok cmd) ⊎ (result ≡ Err NoMemory) }
    // The bytes spell nothing, and this is the first bad place.
    ensures bad { (place : ℕ) → result ≡ Err (Bad place) → IsFirstBad command bytes.now place }
{
    match whole_command(alloc, bytes) {
        Ok(cmd) => Ok(cmd),
        Err(Stop::NoMemory) => Err(CodecFault::NoMemory),
        Err(Stop::Bad(left)) => Err(CodecFault::Bad {
            place: bytes.len() - left,
        }),
    }
}
