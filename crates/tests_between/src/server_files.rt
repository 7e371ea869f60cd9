// What no clause says: that with ample memory a server's files of every form are opened, and which bytes may be damaged.
use std::alloc::Global;
use std::test::Fail;
use tw_server::{Server, ServerOpenError};
use tw_world::MemoryDisk;
use uuid::Uuid;

const CLIENT: [u8; 16] = [15; 16];

/// What comes before the records: the two forms of a file.
const ROW: [u8; 13] = *b"\x01\0\0\0\x08TWSERV01";

const AREAS: [u8; 29] = *b"\x02\0\0\0\x08TWSERV01\0\0\0\0\0\0\0\x1d\0\0\0\0\0\0\0\0";

/// The id of the version with this number, from 1 on. That of 0 is nil; no other has a 0 or a 1, which are gates.
fn id(number: u16) -> [u8; 16] {
    if number == 0 {
        return [0; 16];
    }
    let [high, low] = number.to_be_bytes();
    [
        7,
        7,
        7,
        7,
        7,
        7,
        7,
        7,
        7,
        7,
        7,
        7,
        7,
        high | 16,
        low >> 4 | 16,
        low & 15 | 16,
    ]
}

fn put_names(file: &mut Vec<u8>, number: u16) -> Result<(), Fail> {
    file.extend_from_slice(&CLIENT)?;
    file.extend_from_slice(&id(number))?;
    file.extend_from_slice(&id(number.saturating_sub(1)))?;
    Ok(())
}

/// Adds the record of a version.
fn put_version(file: &mut Vec<u8>, number: u16) -> Result<(), Fail> {
    file.extend_from_slice(&[1, 0, 0, 0, 51, 1])?;
    put_names(file, number)?;
    file.extend_from_slice(b"{}")?;
    Ok(())
}

/// Adds the record of a snapshot of a version.
fn put_snapshot(file: &mut Vec<u8>, number: u16) -> Result<(), Fail> {
    file.extend_from_slice(&[1, 0, 0, 0, 35, 3])?;
    file.extend_from_slice(&CLIENT)?;
    file.extend_from_slice(&id(number))?;
    file.extend_from_slice(b"{}")?;
    Ok(())
}

/// Adds the block of the first 256 versions.
fn put_block(file: &mut Vec<u8>) -> Result<(), Fail> {
    file.extend_from_slice(&[1, 0, 0, 48, 1, 2])?;
    for number in 1..257 {
        put_names(file, number)?;
    }
    Ok(())
}

/// A file of 257 versions with a snapshot between them and one after them, and with a block before the last version, or without.
fn file(alloc: Global, front: &[u8], blocked: bool) -> Result<Vec<u8>, Fail> {
    let mut file = front.to_vec(alloc)?;
    for number in 1..200 {
        put_version(&mut file, number)?;
    }
    put_snapshot(&mut file, 2)?;
    for number in 200..257 {
        put_version(&mut file, number)?;
    }
    if blocked {
        put_block(&mut file)?;
    }
    put_version(&mut file, 257)?;
    put_snapshot(&mut file, 257)?;
    Ok(file)
}

/// How an opening ends.
#[derive(Clone, Copy, PartialEq, Eq)]
enum Ending {
    /// On the whole chain. The file is longer by so many bytes.
    Whole { longer: usize },
    /// On no version.
    Empty,
    Damaged,
    Otherwise,
}

fn open_and_compare(alloc: Global, file: Vec<u8>) -> Result<Ending, Fail> {
    let len = file.len();
    if len > 1 << 20 {
        return Err(Fail::new("a long file"));
    }
    let mut disk = MemoryDisk::new(alloc, file, Vec::new(alloc))?;
    match Server::open(alloc, &mut disk) {
        Ok(server) => {
            let latest = server.latest(Uuid::from_bytes(CLIENT));
            if latest == Uuid::from_bytes(id(257)) {
                let longer = disk.bytes().len().saturating_sub(len);
                return Ok(Ending::Whole { longer });
            }
            if latest == Uuid::from_bytes(id(0)) {
                return Ok(Ending::Empty);
            }
            Ok(Ending::Otherwise)
        }
        Err(ServerOpenError::Damaged { .. }) => Ok(Ending::Damaged),
        Err(_) => Ok(Ending::Otherwise),
    }
}

/// Whether both forms of a file are opened, and get a block if there is none.
fn all_open(alloc: Global) -> Result<bool, Fail> {
    let row = open_and_compare(alloc, file(alloc, &ROW, false)?)?;
    let areas = open_and_compare(alloc, file(alloc, &AREAS, false)?)?;
    let row_blocked = open_and_compare(alloc, file(alloc, &ROW, true)?)?;
    let areas_blocked = open_and_compare(alloc, file(alloc, &AREAS, true)?)?;
    let more = Ending::Whole { longer: 12_294 };
    let same = Ending::Whole { longer: 0 };
    Ok((row == more) & (areas == more) & (row_blocked == same) & (areas_blocked == same))
}

#[test]
fn files_of_every_form_are_opened(rt: HostRuntime) -> Result<(), Fail> {
    assert!(rt; all_open(rt.alloc())?);
    Ok(())
}

/// The last byte of the slot that counts. If it is 255 the records begin there, at a 0 of the fifth version, which closes the gate.
const SLOT: usize = 20;

/// Whether a file with this byte set to 255 is damaged, or opens to the whole chain. If the byte is that of the slot, it opens to none.
fn is_found(alloc: Global, whole: &[u8], at: usize) -> Result<bool, Fail> {
    let mut changed = whole.to_vec(alloc)?;
    if at < changed.len() {
        changed[at] = 255;
    }
    let ending = open_and_compare(alloc, changed)?;
    if at == SLOT {
        return Ok(ending == Ending::Empty);
    }
    Ok(ending != Ending::Otherwise && ending != Ending::Empty)
}

/// The first byte that may be set to 255 so that something else is opened, or else the file's length, and that length.
fn lost_at(alloc: Global) -> Result<(usize, usize), Fail> {
    let whole = file(alloc, &AREAS, true)?;
    let len = whole.len();
    for at in 0..len {
        if !is_found(alloc, whole.as_slice(), at)? {
            return Ok((at, len));
        }
    }
    Ok((len, len))
}

#[test]
fn a_damaged_byte_is_found_or_changes_no_chain(rt: HostRuntime) -> Result<(), Fail> {
    let (at, len) = lost_at(rt.alloc())?;
    assert_eq!(rt; at, len);
    Ok(())
}
