//! The objects of a store as files in a folder. No clause says what a file gets.
use edge_api::{Answer, Body, Call, Listing, MemWorld, Name, Tag, World};
use row_base::NoMemory;
use std::alloc::{AllocError, Global};
use std::io::ErrorKind;
use std::path::Path;
use std::rt::Files;
use std::{fs, io};

/// Why an object wasn't written.
#[derive(Clone, Copy, Debug, Drop, PartialEq, Eq)]
pub enum Unwritten {
    /// A folder wasn't made, or a file wasn't written.
    Failed,
    NoMemory,
}

impl From<NoMemory> for Unwritten {
    fn from(_refused: NoMemory) -> Unwritten {
        Unwritten::NoMemory
    }
}

impl From<AllocError> for Unwritten {
    fn from(_refused: AllocError) -> Unwritten {
        Unwritten::NoMemory
    }
}

impl From<io::Error> for Unwritten {
    fn from(error: io::Error) -> Unwritten {
        match error.kind() {
            ErrorKind::OutOfMemory => Unwritten::NoMemory,
            _ => Unwritten::Failed,
        }
    }
}

/// The names of all objects. The error is want of memory.
fn names_in(alloc: Global, world: &mut MemWorld) -> Result<Listing, NoMemory> {
    let nobody = Tag {
        actor: 0,
        statement: 0,
    };
    match world.call(nobody, Call::List(Name::make(alloc, "")?)) {
        Ok(Answer::Names(listing)) => Ok(listing),
        _ => Err(NoMemory),
    }
}

/// Writes an object under its name, with the folders of its name.
fn write_object<R: Files>(
    rt: &R,
    alloc: Global,
    folder: &str,
    name: &Name,
    body: &Body,
) -> Result<(), Unwritten> {
    let name = name.as_str();
    let path = format!(in alloc; "{folder}/{name}")?;
    if let Some(parent) = Path::new(path.as_str()).parent() {
        fs::create_dir_all(rt, parent)?;
    }
    fs::write(rt, path.as_str(), body.as_bytes())?;
    Ok(())
}

/// Makes the folder, and writes each object of the store under its name.
pub fn write_objects<R: Files>(
    rt: &R,
    alloc: Global,
    folder: &str,
    world: MemWorld,
) -> Result<(), Unwritten> {
    let mut world = world;
    fs::create_dir(rt, folder)?;
    let names = names_in(alloc, &mut world)?;
    for listed in names.as_slice() {
        if let Some(body) = world.object(&listed.name) {
            write_object(rt, alloc, folder, &listed.name, body)?;
        }
    }
    Ok(())
}
