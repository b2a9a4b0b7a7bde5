//! Happy paths of the calls that take memory, and the adapters to the outside.

use std::alloc::{AllocError, Global};
use std::io::{ErrorKind, Write};
use std::test::Fail;
use std::{fs, io};
use vd_base::{
    Boxed, CType, Field, FileShelf, LayoutFault, List, MemShelf, MemSink, Name, OutSink, Shelf,
    ShelfFault, Sink, SinkFault, Structs, Text, are_fields, copy_fields,
};

#[test]
fn names_texts_and_types_are_made(rt: HostRuntime) -> Result<(), Fail> {
    let name = Name::new(rt.alloc(), b"node_1")?;
    assert_eq!(rt; name.as_bytes(), b"node_1".as_slice());
    assert!(rt; name.copy(rt.alloc())? == name);
    let mut text = Text::new(rt.alloc(), b"unit")?;
    text.append(b" u")?;
    assert_eq!(rt; text.copy(rt.alloc())?.as_bytes(), b"unit u".as_slice());
    let typ = CType::Array(
        Boxed::new(rt.alloc(), CType::Struct(name.copy(rt.alloc())?))?,
        3,
    );
    let mut fields = List::new(rt.alloc());
    fields.push(Field { name, typ })?;
    let fields = copy_fields(rt.alloc(), &fields)?;
    match fields.get(0) {
        Some(field) => assert_eq!(rt; field.name.as_bytes(), b"node_1".as_slice()),
        None => assert!(rt; false),
    }
    Ok(())
}

#[test]
fn lists_grow(rt: HostRuntime) -> Result<(), Fail> {
    let mut list = List::from_slice(rt.alloc(), [1u32, 3].as_slice())?;
    list.insert(1, 2)?;
    list.append(List::from_slice(rt.alloc(), [4].as_slice())?)?;
    assert_eq!(rt; list.as_slice(), [1, 2, 3, 4].as_slice());
    Ok(())
}

#[test]
fn memory_holds_the_first_file_and_fails_by_number(rt: HostRuntime) -> Result<(), Fail> {
    let mut files = List::new(rt.alloc());
    for bytes in ["one", "two"] {
        files.push((
            Text::new(rt.alloc(), b"a")?,
            Text::new(rt.alloc(), bytes.as_bytes())?,
        ))?;
    }
    let mut shelf = MemShelf::new(files, List::from_slice(rt.alloc(), [2u32].as_slice())?);
    assert_eq!(rt;
        shelf.read(rt.alloc(), "a", 3)?.as_slice(),
        b"one".as_slice()
    );
    assert_eq!(rt;
        shelf.read(rt.alloc(), "a", 3).err(),
        Some(ShelfFault::Failed)
    );
    assert_eq!(rt;
        shelf.read(rt.alloc(), "a", 2).err(),
        Some(ShelfFault::TooLong)
    );
    let mut sink = MemSink::new(rt.alloc(), List::from_slice(rt.alloc(), [2u32].as_slice())?);
    assert_eq!(rt; sink.put_all(b"ab"), Ok(()));
    assert_eq!(rt; sink.put_all(b"cd"), Err(SinkFault::Failed));
    assert_eq!(rt; sink.put_all(b"ef"), Ok(()));
    assert_eq!(rt; sink.bytes(), b"abef".as_slice());
    Ok(())
}

#[test]
fn files_are_read_up_to_the_limit(rt: HostRuntime) -> Result<(), Fail> {
    let path = "vd_base_shelf_test.txt";
    fs::write(&rt, path, "unit u\n")?;
    let mut shelf = FileShelf::new(&rt);
    let read = shelf.read(rt.alloc(), path, 7);
    let longer = shelf.read(rt.alloc(), path, 6);
    fs::remove_file(&rt, path)?;
    assert_eq!(rt; read?.as_slice(), b"unit u\n".as_slice());
    assert_eq!(rt; longer.err(), Some(ShelfFault::TooLong));
    assert_eq!(rt;
        shelf.read(rt.alloc(), path, 7).err(),
        Some(ShelfFault::Failed)
    );
    Ok(())
}

// A stream that takes three bytes and then fails.
#[derive(Drop)]
struct Breaking {
    left: usize,
}

impl Write for Breaking {
    fn write(&mut self, buf: &[u8]) -> io::Result<usize> {
        if self.left == 0 {
            return Err(io::Error::from(ErrorKind::BrokenPipe));
        }
        let count = self.left.min(buf.len());
        self.left -= count;
        Ok(count)
    }

    fn flush(&mut self) -> io::Result<()> {
        Ok(())
    }
}

#[test]
fn streams_are_written_until_they_fail(rt: HostRuntime) -> Result<(), Fail> {
    let mut out = OutSink::new(rt.stdout());
    assert_eq!(rt; out.put_all(b"header u ok\n"), Ok(()));
    let mut broken = OutSink::new(Breaking { left: 3 });
    assert_eq!(rt; broken.put_all(b"ab"), Ok(()));
    assert_eq!(rt; broken.put_all(b"cd"), Err(SinkFault::Failed));
    Ok(())
}

// A type by a word, in arrays of these lengths, the inner one first; 0 for none.
fn typ(alloc: Global, word: &str, lengths: [u32; 2]) -> Result<CType, AllocError> {
    let mut typ = word_type(alloc, word)?;
    for length in lengths {
        if length > 0 {
            typ = CType::Array(Boxed::new(alloc, typ)?, length);
        }
    }
    Ok(typ)
}

// A pointer is to a struct that is nowhere.
fn word_type(alloc: Global, word: &str) -> Result<CType, AllocError> {
    match word {
        "void" => Ok(CType::Void),
        "int" => Ok(CType::Int),
        "lock" => Ok(CType::Lock),
        "pointer" => Ok(CType::Pointer(Boxed::new(alloc, CType::Void)?)),
        _ => Ok(CType::Struct(word_name(alloc, word)?)),
    }
}

fn word_name(alloc: Global, word: &str) -> Result<Name, AllocError> {
    Name::new(alloc, word.as_bytes()).map_err(|_| AllocError)
}

// Adds a struct of two fields, the second an int. None where the first is void.
fn add(
    alloc: Global,
    structs: &mut Structs,
    names: [&str; 3],
    word: &str,
    lengths: [u32; 2],
) -> Result<Option<LayoutFault>, AllocError> {
    let [of, first, second] = names;
    let mut fields = List::new(alloc);
    fields.push(Field {
        name: word_name(alloc, first)?,
        typ: typ(alloc, word, lengths)?,
    })?;
    fields.push(Field {
        name: word_name(alloc, second)?,
        typ: CType::Int,
    })?;
    let of = word_name(alloc, of)?;
    if !are_fields(fields.as_slice()) {
        return Ok(None);
    }
    Ok(structs.add(of, fields).err())
}

// A list's node, and a struct that begins with three of them.
fn two_structs(alloc: Global) -> Result<Structs, AllocError> {
    let mut structs = Structs::new(alloc);
    add(alloc, &mut structs, ["n", "a", "b"], "pointer", [0, 0])?;
    add(alloc, &mut structs, ["m", "x", "y"], "n", [3, 0])?;
    Ok(structs)
}

#[test]
fn types_have_sizes(rt: HostRuntime) -> Result<(), Fail> {
    let structs = two_structs(rt.alloc())?;
    for (word, lengths, size) in [
        ("void", [0, 0], None),
        ("int", [0, 0], Some(1)),
        ("pointer", [0, 0], Some(1)),
        ("q", [0, 0], None),
        ("n", [0, 0], Some(2)),
        ("m", [0, 0], Some(7)),
        ("m", [16, 0], Some(112)),
        ("void", [2, 0], None),
        ("lock", [1024, 1024], Some(1048576)),
        ("int", [1025, 1024], None),
        ("m", [u32::MAX, u32::MAX], None),
    ] {
        let typ = typ(rt.alloc(), word, lengths)?;
        assert_eq!(rt; structs.size(&typ), size);
    }
    Ok(())
}

#[test]
fn fields_have_slots(rt: HostRuntime) -> Result<(), Fail> {
    let structs = two_structs(rt.alloc())?;
    for (of, field, place) in [
        ("n", "a", Some((0, 0))),
        ("n", "b", Some((1, 1))),
        ("m", "x", Some((0, 0))),
        ("m", "y", Some((6, 1))),
        ("m", "a", None),
        ("q", "a", None),
    ] {
        let of = word_name(rt.alloc(), of)?;
        let slot = structs.field(&of, &word_name(rt.alloc(), field)?);
        assert_eq!(rt; slot.map(|slot| (slot.offset, slot.index)), place);
    }
    let m = word_name(rt.alloc(), "m")?;
    assert!(rt; matches!(structs.typ(&m, 1), Some(CType::Int)));
    assert!(rt; structs.typ(&m, 2).is_none());
    Ok(())
}

fn is_refused(answer: Option<LayoutFault>, kind: &str, of: &str) -> bool {
    match answer {
        Some(LayoutFault::Twice(name)) => kind == "twice" && name.as_bytes() == of.as_bytes(),
        Some(LayoutFault::Unknown(name)) => kind == "unknown" && name.as_bytes() == of.as_bytes(),
        Some(LayoutFault::Large(name)) => kind == "large" && name.as_bytes() == of.as_bytes(),
        Some(LayoutFault::Memory(_)) => false,
        None => kind == "added",
    }
}

#[test]
fn structs_are_refused(rt: HostRuntime) -> Result<(), Fail> {
    let mut structs = two_structs(rt.alloc())?;
    for (names, word, lengths, kind, told) in [
        (["n", "a", "b"], "q", [0, 0], "twice", "n"),
        (["p", "a", "a"], "q", [0, 0], "twice", "a"),
        (["p", "a", "b"], "p", [0, 0], "unknown", "p"),
        (["p", "a", "b"], "q", [1048577, 0], "unknown", "q"),
        (["p", "a", "b"], "int", [1024, 1024], "large", "p"),
        (["p", "a", "b"], "int", [1048575, 0], "added", "p"),
    ] {
        let answer = add(rt.alloc(), &mut structs, names, word, lengths)?;
        assert!(rt; is_refused(answer, kind, told));
    }
    Ok(())
}
