//! What no clause says: that each copy and each key can be made, where memory serves.
use fh_model::{
    Act, BLOCK_BYTES, BlockPiece, Bytes32, Change, Cmd, Commit, Copies, FileMeta, Item, Items, Key,
    Mode, Name, Namespace, NoMemory, Node, Piece, Revision, Session, Text, User, copy_all,
};
use std::alloc::Global;

fn text(alloc: Global, chars: &str) -> Result<Text, NoMemory> {
    Ok(Text::new(String::from_str(alloc, chars)?))
}

/// A version of a file with one block.
fn file_of(alloc: Global, piece: Piece) -> Result<FileMeta, NoMemory> {
    let mut pieces = Items::empty(alloc);
    pieces.push(piece)?;
    Ok(FileMeta {
        id: 1,
        rev: 1,
        size: piece.len as u64,
        hash: piece.digest,
        client: 2,
        server: 3,
        pieces,
    })
}

/// Copies a version of a file, by itself and as a node.
fn copy_file(alloc: Global, file: FileMeta) -> Result<(), NoMemory> {
    let kept = Revision {
        ns: 1,
        names: Items::empty(alloc),
        file,
    }
    .copy()?;
    let _node = Node::File(kept.file).copy()?;
    Ok(())
}

/// Copies the session that holds one block.
fn copy_session(alloc: Global, piece: Piece) -> Result<(), NoMemory> {
    let mut held = Items::empty(alloc);
    held.push(BlockPiece { block: 0, piece }.copy()?)?;
    let _session = Session {
        number: 1,
        user: 1,
        concurrent: false,
        closed: true,
        start: 3,
        size: piece.len as u64,
        pieces: held,
    }
    .copy()?;
    Ok(())
}

/// Copies the upload of one piece.
fn copy_upload(alloc: Global, piece: Piece) -> Result<(), NoMemory> {
    let commit = Commit {
        path: text(alloc, "/Docs")?,
        mode: Mode::Update(1).copy()?,
        rename: false,
        strict: true,
        client: Some(2),
    };
    let _act = Act::Upload {
        user: 1,
        commit,
        drafted: 0,
        last: Some(piece),
    }
    .copy()?;
    Ok(())
}

/// Copies the changes of a namespace, and the namespace with a member.
fn copy_space(alloc: Global, names: Items<Name>) -> Result<(), NoMemory> {
    let mut changes = Items::empty(alloc);
    changes.push(Change::Put {
        names: names.copy()?,
        node: Node::Folder { id: 1 },
    })?;
    changes.push(Change::Gone { names })?;
    let mut members = Items::empty(alloc);
    members.push(7)?;
    let _space = Namespace {
        number: 1,
        shared: true,
        floor: 0,
        changes,
        members,
    }
    .copy()?;
    Ok(())
}

fn docs(alloc: Global) -> Result<Items<Name>, NoMemory> {
    let mut names = Items::empty(alloc);
    names.push(Name {
        shown: text(alloc, "Docs")?,
        folded: text(alloc, "docs")?,
    })?;
    Ok(names)
}

/// Copies a key.
fn copy_key(alloc: Global, names: &[Name]) -> Result<(), NoMemory> {
    let _key = Key::of(alloc, names)?.copy()?;
    Ok(())
}

/// Copies a key, and a mount at its names.
fn copy_names(alloc: Global, names: Items<Name>) -> Result<(), NoMemory> {
    copy_key(alloc, names.as_slice())?;
    let node = Node::Mount { id: 1, ns: 2 };
    let _item = Item { names, node }.copy()?;
    Ok(())
}

fn copy_user(alloc: Global) -> Result<(), NoMemory> {
    let user = User {
        number: 1,
        home: 1,
        token: Some(text(alloc, "rootroot")?),
    };
    let _users = copy_all(alloc, &[user])?;
    Ok(())
}

fn copy_command(alloc: Global) -> Result<(), NoMemory> {
    let act = Act::MakeFolder {
        user: 1,
        path: text(alloc, "/Docs")?,
        rename: false,
    };
    let _cmd = Cmd {
        seat: 1,
        at: 2,
        act,
    }
    .copy()?;
    Ok(())
}

fn a_block() -> Result<Piece, NoMemory> {
    Piece {
        place: 0,
        len: BLOCK_BYTES as u32,
        digest: Bytes32 { bytes: [0; 32] }.copy()?,
    }
    .copy()
}

/// Makes and copies one of each type that can be copied.
fn copy_each(alloc: Global) -> Result<(), NoMemory> {
    let piece = a_block()?;
    copy_names(alloc, docs(alloc)?)?;
    copy_file(alloc, file_of(alloc, piece)?)?;
    copy_session(alloc, piece)?;
    copy_upload(alloc, piece)?;
    copy_space(alloc, docs(alloc)?)?;
    copy_user(alloc)?;
    copy_command(alloc)
}

#[test]
fn each_copy_is_made(rt: HostRuntime) {
    assert!(rt; copy_each(rt.alloc()).is_ok());
}
