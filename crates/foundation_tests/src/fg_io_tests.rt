//! Tests of `fg_io`.
ghost use Rattle.std.specs.Prelude.{◌<◌};

use fg_io::{
    FetchFault, FolderShelf, MemShelf, MemSink, MemSource, Shelf, Sink, Source, StdinSource,
    StdoutSink, put_all,
};
use std::alloc::Global;
use std::test::Fail;
use std::{env, fs};

// Whether one pull into a buffer of four gives these bytes.
fn gives<S: Source<()>>(source: &mut S, wanted: &[u8]) -> bool {
    let mut buf = [0u8; 4];
    match source.pull(&(), &mut buf) {
        Ok(count) => wanted == &buf[..count],
        Err(_) => false,
    }
}

fn gives_none<S: Source<()>>(source: &mut S) -> bool {
    let mut buf = [0u8; 4];
    source.pull(&(), &mut buf).is_err()
}

// The seven bytes, at most so many a call: none where memory is wanting.
fn seven(alloc: Global, most: u32, failing: Vec<u64>) -> Option<MemSource>
    requires { 0 < most }
{
    match b"abcdefg".as_slice().to_vec(alloc) {
        Ok(bytes) => Some(MemSource::new(bytes, most, failing)),
        Err(_) => None,
    }
}

// At most three a call, of which the second and the sixth fail.
fn three_a_call(alloc: Global) -> Option<MemSource> {
    let failing = vec![in alloc; 2, 6].ok()?;
    seven(alloc, 3, failing)
}

fn gives_all_in_turn(source: &mut MemSource) -> bool {
    gives(source, b"abc")
        && gives_none(source)
        && gives(source, b"def")
        && gives(source, b"g")
        && gives(source, b"")
        && gives_none(source)
        && gives(source, b"")
}

#[test]
fn source_gives_its_bytes_and_fails_where_told(rt: HostRuntime) -> Result<(), Fail> {
    let mut source = three_a_call(rt.alloc()).ok_or("no memory")?;
    assert!(rt; gives_all_in_turn(&mut source));
    Ok(())
}

#[test]
fn source_gives_what_the_buffer_takes(rt: HostRuntime) -> Result<(), Fail> {
    let mut source = seven(rt.alloc(), 9, Vec::new(rt.alloc())).ok_or("no memory")?;
    assert!(rt; gives(&mut source, b"abcd"));
    Ok(())
}

fn put_pieces(sink: &mut MemSink) -> bool {
    put_all(sink, "hello".as_bytes()).is_ok()
        && put_all(sink, "".as_bytes()).is_ok()
        && put_all(sink, "you".as_bytes()).is_ok()
}

fn are_put(sink: &mut MemSink, is_whole: bool, written: &str) -> bool {
    put_pieces(sink) == is_whole && sink.bytes() == written.as_bytes()
}

// A sink that takes at most so many bytes a call, of which one fails: none where memory is wanting.
fn failing_sink(alloc: Global, most: u32, failing: u64) -> Option<MemSink>
    requires { 0 < most }
{
    let failing = vec![in alloc; failing].ok()?;
    MemSink::new(alloc, most, failing).ok()
}

// Whether the pieces are put or not, and this is written.
fn writes(alloc: Global, most: u32, failing: u64, is_whole: bool, written: &str) -> bool
    requires { 0 < most }
{
    match failing_sink(alloc, most, failing) {
        Some(mut sink) => are_put(&mut sink, is_whole, written),
        None => false,
    }
}

#[test]
fn pieces_are_put_whole_or_as_far_as_the_sink_takes_them(rt: HostRuntime) {
    for (most, failing, is_whole, written) in [
        (1, 0, true, "helloyou"),
        (3, 0, true, "helloyou"),
        (100, 0, true, "helloyou"),
        (1, 1, false, ""),
        (1, 7, false, "helloy"),
        (3, 2, false, "hel"),
        (3, 3, false, "hello"),
    ] {
        assert!(rt;
            writes(rt.alloc(), most, failing, is_whole, written),
            "{most} {failing}"
        );
    }
}

// Whether there is room for these bytes, but not for one more.
fn fills<S: Sink>(sink: &mut S, last: &[u8]) -> bool {
    if last.is_empty() {
        return false;
    }
    match sink.put(last) {
        Ok(count) => count == 1 && sink.put(last).is_err(),
        Err(_) => false,
    }
}

fn ends_full(sink: &MemSink) -> bool {
    sink.bytes().len() == 1_000_000 && sink.bytes().last().copied() == Some(b'a')
}

// Whether a sink that took this piece, one byte short of its most, takes one byte more.
fn is_filled(sink: &mut MemSink, piece: &[u8]) -> bool {
    put_all(sink, piece).is_ok() && fills(sink, b"ab") && ends_full(sink)
}

#[test]
fn full_sink_fails(rt: HostRuntime) -> Result<(), Fail> {
    let piece = vec![in rt.alloc(); 7u8; 999_999]?;
    let mut sink = MemSink::new(rt.alloc(), u32::MAX, Vec::new(rt.alloc()))?;
    assert!(rt; is_filled(&mut sink, piece.as_slice()));
    Ok(())
}

fn add(alloc: Global, shelf: &mut MemShelf, name: &str, of: &str) -> Option<()> {
    let name = String::from_str(alloc, name).ok()?;
    let bytes = of.as_bytes().to_vec(alloc).ok()?;
    shelf.add(name, bytes).ok()
}

// Adds a file that is written twice, and another; the third call fails.
fn add_files(alloc: Global, shelf: &mut MemShelf) -> Option<()> {
    add(alloc, shelf, "a", "old")?;
    add(alloc, shelf, "b", "other")?;
    add(alloc, shelf, "a", "four")?;
    let failing = vec![in alloc; 3].ok()?;
    shelf.fail_at(failing);
    Some(())
}

fn fetches<H: Shelf<(), ()>>(shelf: &mut H, name: &str, at_most: u64, wanted: &[u8]) -> bool {
    match shelf.fetch(&(), &(), name, at_most) {
        Ok(found) => found.as_slice() == wanted,
        Err(_) => false,
    }
}

fn fails<H: Shelf<(), ()>>(shelf: &mut H, name: &str, at_most: u64, fault: FetchFault) -> bool {
    match shelf.fetch(&(), &(), name, at_most) {
        Ok(_) => false,
        Err(found) => found == fault,
    }
}

// The third call fails, and there is no file "c".
fn answers_its_files(shelf: &mut MemShelf) -> bool {
    fetches(shelf, "a", 4, b"four")
        && fails(shelf, "a", 3, FetchFault::TooLong)
        && fails(shelf, "a", 4, FetchFault::Failed)
        && fetches(shelf, "b", u64::MAX, b"other")
        && fails(shelf, "c", 9, FetchFault::Failed)
        && fetches(shelf, "a", 9, b"four")
}

#[test]
fn shelf_answers_its_files_and_fails_where_told(rt: HostRuntime) -> Result<(), Fail> {
    let mut shelf = MemShelf::new(rt.alloc());
    add_files(rt.alloc(), &mut shelf).ok_or("no memory")?;
    assert!(rt; answers_its_files(&mut shelf));
    Ok(())
}

// More than is read at once.
fn contents(alloc: Global) -> Option<Vec<u8>> {
    let mut bytes = Vec::new(alloc);
    for i in 0..5000u32 {
        bytes.push((i % 251) as u8).ok()?;
    }
    Some(bytes)
}

fn answers_a_file<H: Shelf<(), ()>>(shelf: &mut H, name: &str, wanted: &[u8]) -> bool {
    fetches(shelf, name, 5000, wanted)
        && fetches(shelf, name, u64::MAX, wanted)
        && fails(shelf, name, 4999, FetchFault::TooLong)
}

// Whether a file that is there is answered, and one that was removed isn't.
fn is_answered(rt: HostRuntime, name: &str, contents: &[u8]) -> bool {
    let mut shelf = FolderShelf::new(rt, rt.alloc());
    fs::write(&rt, name, contents).is_ok()
        && answers_a_file(&mut shelf, name, contents)
        && fs::remove_file(&rt, name).is_ok()
        && fails(&mut shelf, name, 5000, FetchFault::Failed)
}

fn reads_a_file(rt: HostRuntime, name: &str) -> bool {
    match contents(rt.alloc()) {
        Some(contents) => is_answered(rt, name, contents.as_slice()),
        None => false,
    }
}

#[test]
fn folder_shelf_reads_files(rt: HostRuntime) -> Result<(), Fail> {
    let process = std::process::id(rt.process());
    let folder = env::temp_dir(&rt)?;
    let file = format!(in rt.alloc(); "fg_io-{process}")?;
    let path = folder.as_path().join(rt.alloc(), file.as_str())?;
    let name = path.as_path().to_str().ok_or("the path is text")?;
    assert!(rt; reads_a_file(rt, name));
    Ok(())
}

// A test is run on no input.
#[test]
fn standard_streams_are_read_and_written(rt: HostRuntime) {
    let mut source = StdinSource::new(rt.stdin());
    assert!(rt; gives(&mut source, b""));
    assert!(rt; gives(&mut source, b""));
    let mut out = StdoutSink::new(rt.stdout());
    assert!(rt; put_all(&mut out, "written\n".as_bytes()).is_ok());
}
