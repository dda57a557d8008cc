// Runs that stop at each call of the disk. What a crash may leave then opens to the commits that were
// durable, or to those and the one that was under way.
use crate::fixture::{FIRST, RUN, RUN_SMALL, Ran, run_args, run_script, strings};
use crate::transactions::WRITTEN;
use je_disk::extended;
use je_lsn::FileNo;
use mem_disk::MemDisk;
use std::alloc::{AllocError, Global};
use std::process::Abort;
use std::test::Fail;
use store_model::{Answer, Event};

// The files of a disk, by number.
type Files = Vec<(FileNo, Vec<u8>)>;

// How many commits were durable.
fn durable(journal: &[Event]) -> u64 {
    let mut count = 0;
    for event in journal {
        if let Event::SyncEnd {
            answer: Answer::Durable { commit },
        } = event
        {
            count = *commit;
        }
    }
    count
}

fn copies(alloc: Global, files: &Files) -> Result<Files, AllocError> {
    let mut copies = Vec::new(alloc);
    for (f, bytes) in files {
        copies.push((*f, Vec::from_slice(alloc, bytes)?))?;
    }
    Ok(copies)
}

// How many zeros stand behind a piece of a file: more than an entry's header has.
const ZEROS: usize = 40;

// A piece that ends with a block may have zeros behind, where the next block was not written.
const BLOCK: usize = 64;

// The files, the last one cut to a length, with so many zeros behind.
fn cut_last(alloc: Global, files: &Files, len: usize, zeros: usize) -> Result<Files, AllocError> {
    let mut image = copies(alloc, files)?;
    if let Some((_, bytes)) = image.last_mut() {
        bytes.truncate(len);
        bytes.resize(len.saturating_add(zeros), 0)?;
    }
    Ok(image)
}

// The files without the last one.
fn without_last(alloc: Global, files: &Files) -> Result<Files, AllocError> {
    let mut image = copies(alloc, files)?;
    image.pop();
    Ok(image)
}

// A script that reads the store, and what it writes for each prefix of the commits. The images that were
// opened stand beside them: how many commits the files meant, with this file the last one, at each length.
#[derive(Drop)]
pub struct Prefixes {
    reading: Vec<u8>,
    texts: Vec<String>,
    last: FileNo,
    found: Vec<usize>,
}

impl Prefixes {
    // No image was opened yet.
    pub fn new(alloc: Global, reading: &[u8], texts: Vec<String>) -> Result<Prefixes, AllocError> {
        Ok(Prefixes {
            reading: Vec::from_slice(alloc, reading)?,
            texts,
            last: FileNo(0),
            found: Vec::new(alloc),
        })
    }

    // Which of the texts this is, at least so far on; none where it is no such text.
    fn place_of(&self, text: &str, least: usize) -> Option<usize> {
        for (count, wanted) in self.texts.iter().enumerate().skip(least) {
            if wanted.as_str() == text {
                return Some(count);
            }
        }
        None
    }
}

// How many commits the files mean, at least so many; none where they do not open, or mean none of these.
fn opens_to(
    alloc: Global,
    image: Files,
    prefixes: &Prefixes,
    least: usize,
) -> Result<Option<usize>, AllocError> {
    let disk = MemDisk::with_files(alloc, image)?;
    let ran = run_script(alloc, disk, &prefixes.reading)?;
    if ran.status == 0 {
        Ok(prefixes.place_of(ran.text(), least))
    } else {
        Ok(None)
    }
}

// The same where the last file is cut to a length, which zeros behind a block do not change. Images that were
// opened before are not opened again.
fn cut_opens_to(
    alloc: Global,
    files: &Files,
    len: usize,
    prefixes: &mut Prefixes,
    least: usize,
) -> Result<Option<usize>, AllocError> {
    if let Some(count) = prefixes.found.get(len) {
        return Ok(Some(*count));
    }
    let image = cut_last(alloc, files, len, 0)?;
    let found = opens_to(alloc, image, prefixes, least)?;
    if len % BLOCK == 0 {
        let filled = cut_last(alloc, files, len, ZEROS)?;
        if opens_to(alloc, filled, prefixes, least)? != found {
            return Ok(None);
        }
    }
    if let Some(count) = found {
        if prefixes.found.len() == len {
            prefixes.found.push(count)?;
        }
    }
    Ok(found)
}

// So many commits were found: those that were durable, or one more.
fn assert_found(rt: &impl Abort, found: Option<usize>, least: usize) {
    match found {
        Some(count) => assert!(rt; count == least || count == least.saturating_add(1)),
        None => assert!(rt; false, "no prefix of at least {least}"),
    }
}

// Whether a crash leaves the file whole.
fn is_left_whole(
    alloc: Global,
    disk: &MemDisk,
    f: FileNo,
    bytes: &[u8],
) -> Result<bool, AllocError> {
    let crash_state = disk.crash_state(alloc, f)?;
    let len = bytes.len();
    Ok(
        crash_state.exists_always
            && crash_state.stable.len() == len
            && crash_state.max_len == len as u64,
    )
}

// Each file but the last one is left whole by any crash.
fn assert_earlier_stand(
    rt: &impl Abort,
    alloc: Global,
    disk: &MemDisk,
    files: &[(FileNo, Vec<u8>)],
) -> Result<(), AllocError> {
    let earlier = files.len().saturating_sub(1);
    for (f, bytes) in files.iter().take(earlier) {
        assert!(rt; is_left_whole(alloc, disk, *f, bytes)?);
    }
    Ok(())
}

// The image opens to so many commits or to one more.
fn assert_opens(
    rt: &impl Abort,
    alloc: Global,
    image: Files,
    prefixes: &Prefixes,
    least: usize,
) -> Result<(), AllocError> {
    let found = opens_to(alloc, image, prefixes, least)?;
    assert_found(rt, found, least);
    Ok(())
}

// What a crash may leave of the last file: how long its shortest and its longest piece are, and whether the file
// may be gone.
#[derive(Clone, Copy)]
struct Left {
    shortest: usize,
    longest: usize,
    may_go: bool,
}

// The longest piece ends with the file, or with the room that is set aside behind it.
fn last_crash_state(
    rt: &impl Abort,
    alloc: Global,
    disk: &MemDisk,
    f: FileNo,
    len: usize,
) -> Result<Left, AllocError> {
    let crash_state = disk.crash_state(alloc, f)?;
    let longest = crash_state.max_len;
    assert!(rt; crash_state.may_exist);
    assert!(rt; longest == len as u64 || Some(longest) == extended(len as u64));
    Ok(Left {
        shortest: crash_state.stable.len(),
        longest: longest as usize,
        may_go: !crash_state.exists_always,
    })
}

// With zeros in the room behind the last file the files open to so many commits or to one more: a few, and in the
// first file as many as there is room for.
fn assert_room_opens(
    rt: &impl Abort,
    alloc: Global,
    files: &Files,
    room: usize,
    prefixes: &Prefixes,
    least: usize,
) -> Result<(), AllocError> {
    let Some((f, bytes)) = files.last() else {
        return Ok(());
    };
    let zeros = if f.0 == 0 { room } else { room.min(ZEROS) };
    let image = cut_last(alloc, files, bytes.len(), zeros)?;
    assert_opens(rt, alloc, image, prefixes, least)
}

// The files, with each piece of the last one that a crash may leave, open to so many commits or to one
// more.
fn assert_pieces_open(
    rt: &impl Abort,
    alloc: Global,
    disk: &MemDisk,
    files: &Files,
    prefixes: &mut Prefixes,
    least: usize,
) -> Result<(), AllocError> {
    let Some((f, bytes)) = files.last() else {
        return assert_opens(rt, alloc, Vec::new(alloc), prefixes, least);
    };
    if prefixes.last != *f {
        prefixes.last = *f;
        prefixes.found.clear();
    }
    let left = last_crash_state(rt, alloc, disk, *f, bytes.len())?;
    if left.may_go {
        let image = without_last(alloc, files)?;
        assert_opens(rt, alloc, image, prefixes, least)?;
    }
    for len in left.shortest..bytes.len() + 1 {
        let found = cut_opens_to(alloc, files, len, prefixes, least)?;
        assert_found(rt, found, least);
    }
    let room = left.longest.saturating_sub(bytes.len());
    assert_room_opens(rt, alloc, files, room, prefixes, least)
}

// Each image of the disk, with the bytes of the last file that were written there, opens to the commits
// that were durable or to one more.
fn assert_images_open(
    rt: &impl Abort,
    alloc: Global,
    ran: &Ran,
    prefixes: &mut Prefixes,
) -> Result<(), AllocError> {
    let least = durable(&ran.journal) as usize;
    let files = ran.disk.files(alloc)?;
    assert_earlier_stand(rt, alloc, &ran.disk, &files)?;
    assert_pieces_open(rt, alloc, &ran.disk, &files, prefixes, least)
}

// A run over a disk that stops after so many calls: how many files it leaves where it came to its end.
fn stop_after(
    rt: &impl Abort,
    alloc: Global,
    args: &[&str],
    script: &[u8],
    calls: u64,
    prefixes: &mut Prefixes,
) -> Result<Option<usize>, AllocError> {
    let mut disk = MemDisk::new(alloc);
    disk.stop_after(calls);
    let ran = run_args(alloc, args, disk, script)?;
    assert_images_open(rt, alloc, &ran, prefixes)?;
    if ran.status == 0 {
        Ok(Some(ran.disk.files(alloc)?.len()))
    } else {
        Ok(None)
    }
}

// Such runs, each one call longer, up to one that comes to its end: how many files that one leaves. None
// where 1,000 calls are too few.
pub fn stop_at_each_call(
    rt: &impl Abort,
    alloc: Global,
    args: &[&str],
    script: &[u8],
    prefixes: &mut Prefixes,
) -> Result<Option<usize>, AllocError> {
    for calls in 0..1_000u64 {
        let files = stop_after(rt, alloc, args, script, calls, prefixes)?;
        if files.is_some() {
            return Ok(files);
        }
    }
    Ok(None)
}

// What is read of the first example: the store before it, with the database, and with the record.
fn first_prefixes(alloc: Global) -> Result<Prefixes, AllocError> {
    let texts = [
        "1 s1 nodatabase\nend commits 0 databases 0 records 0\n",
        "1 s1 notfound\nend commits 0 databases 1 records 0\n",
        "1 s1 ok 61 31\nend commits 0 databases 1 records 1\n",
    ];
    Prefixes::new(alloc, b"s1 get t 61\n", strings(alloc, &texts)?)
}

#[test]
fn stops_in_the_first_example(rt: HostRuntime) -> Result<(), Fail> {
    let alloc = rt.alloc();
    let mut prefixes = first_prefixes(alloc)?;
    assert!(rt; stop_at_each_call(&rt, alloc, &RUN, FIRST, &mut prefixes)? == Some(1));
    Ok(())
}

// A commit that is written out and not synced may be lost, as long as no later sync covers it.
#[test]
fn stops_in_a_written_commit(rt: HostRuntime) -> Result<(), Fail> {
    let alloc = rt.alloc();
    let mut prefixes = first_prefixes(alloc)?;
    assert!(rt; stop_at_each_call(&rt, alloc, &RUN, WRITTEN, &mut prefixes)? == Some(1));
    Ok(())
}

// A database is made, renamed, emptied and removed. The rename logs two entries and its commit.
const CHANGES: &[u8] =
    b"s1 create t plain\ns1 put t 61 31\ns1 rename t u\ns1 truncate u\ns1 remove u\n";

// What is read of each prefix of its commits.
fn change_prefixes(alloc: Global) -> Result<Prefixes, AllocError> {
    let texts = [
        "1 s1 ok\n2 s1 nodatabase\n3 s1 nodatabase\nend commits 0 databases 0 records 0\n",
        "1 s1 ok t\n2 s1 notfound\n3 s1 nodatabase\nend commits 0 databases 1 records 0\n",
        "1 s1 ok t\n2 s1 ok 61 31\n3 s1 nodatabase\nend commits 0 databases 1 records 1\n",
        "1 s1 ok u\n2 s1 nodatabase\n3 s1 ok 61 31\nend commits 0 databases 1 records 1\n",
        "1 s1 ok u\n2 s1 nodatabase\n3 s1 notfound\nend commits 0 databases 1 records 0\n",
        "1 s1 ok\n2 s1 nodatabase\n3 s1 nodatabase\nend commits 0 databases 0 records 0\n",
    ];
    Prefixes::new(
        alloc,
        b"s1 list\ns1 get t 61\ns1 get u 61\n",
        strings(alloc, &texts)?,
    )
}

#[test]
fn stops_in_changes_of_a_database(rt: HostRuntime) -> Result<(), Fail> {
    let alloc = rt.alloc();
    let mut prefixes = change_prefixes(alloc)?;
    assert!(rt; stop_at_each_call(&rt, alloc, &RUN, CHANGES, &mut prefixes)? == Some(1));
    Ok(())
}

// How many keys the long script has.
const KEYS: usize = 6;

// Whether the line of the long script deletes its key. Line 0 stands for no line.
fn is_deletion(line: usize) -> bool {
    line % 13 == 0
}

// The data that a line of the long script puts, in hexadecimal digits; none where it deletes.
fn data_of(alloc: Global, line: usize) -> Result<String, AllocError> {
    let mut data = String::new(alloc);
    if is_deletion(line) {
        return Ok(data);
    }
    let len = if line % 10 == 0 { 3_600 } else { 3 };
    let digits = format!(in alloc; "{line:02}")?;
    for _ in 0..len {
        data.push_str(&digits)?;
    }
    Ok(data)
}

// The name of a key in hexadecimal digits.
fn key_of(alloc: Global, key: usize) -> Result<String, AllocError> {
    format!(in alloc; "6b{key:02}")
}

// A line of the long script.
pub fn line_of(alloc: Global, line: usize) -> Result<String, AllocError> {
    let key = key_of(alloc, line % KEYS)?;
    let data = data_of(alloc, line)?;
    if data.is_empty() {
        format!(in alloc; "s1 delete t {key}\n")
    } else {
        format!(in alloc; "s1 put t {key} {data}\n")
    }
}

// 40 lines: the database is made, and its keys get data in turn.
fn long_script(alloc: Global) -> Result<String, AllocError> {
    let mut script = String::from_str(alloc, "s1 create t plain\n")?;
    for line in 1..40usize {
        script.push_str(line_of(alloc, line)?.as_str())?;
    }
    Ok(script)
}

// A script that reads all keys.
fn reading(alloc: Global) -> Result<String, AllocError> {
    let mut script = String::new(alloc);
    for key in 0..KEYS {
        let key = key_of(alloc, key)?;
        script.push_str(format!(in alloc; "s1 get t {key}\n")?.as_str())?;
    }
    Ok(script)
}

// What is read of a key that a line of the script wrote last; line 0 stands for none.
fn row_of(alloc: Global, key: usize, line: usize) -> Result<String, AllocError> {
    let number = key.saturating_add(1);
    let data = data_of(alloc, line)?;
    if data.is_empty() {
        return format!(in alloc; "{number} s1 notfound\n");
    }
    let key = key_of(alloc, key)?;
    format!(in alloc; "{number} s1 ok {key} {data}\n")
}

// What is read where these lines wrote the keys last, in order.
fn text_of(alloc: Global, lines: &[usize]) -> Result<String, AllocError> {
    let mut text = String::new(alloc);
    let mut records = 0usize;
    for (key, line) in lines.iter().enumerate() {
        text.push_str(row_of(alloc, key, *line)?.as_str())?;
        if !is_deletion(*line) {
            records = records.saturating_add(1);
        }
    }
    let end = format!(in alloc; "end commits 0 databases 1 records {records}\n")?;
    text.push_str(end.as_str())?;
    Ok(text)
}

// What is read of an empty store.
const NO_DATABASE: &str =
    "1 s1 nodatabase\n2 s1 nodatabase\n3 s1 nodatabase\n4 s1 nodatabase\n5 s1 nodatabase\n6 s1 nodatabase\nend commits 0 databases 0 records 0\n";

// What is read of each prefix of the commits of a long script, one a line, which has so many.
pub fn long_prefixes(alloc: Global, count: usize) -> Result<Prefixes, AllocError> {
    let mut texts = strings(alloc, &[NO_DATABASE])?;
    let mut lines = [0; KEYS];
    texts.push(text_of(alloc, &lines)?)?;
    for line in 1..count {
        lines[line % KEYS] = line;
        texts.push(text_of(alloc, &lines)?)?;
    }
    Prefixes::new(alloc, reading(alloc)?.as_bytes(), texts)
}

// Files of 4,096 bytes, five of them in the end. A build that checks as it runs takes minutes over the
// images, and one that was proved a second.
#[test]
fn stops_in_many_files(rt: HostRuntime) -> Result<(), Fail> {
    let alloc = rt.alloc();
    let script = long_script(alloc)?;
    let mut prefixes = long_prefixes(alloc, 40)?;
    let files = stop_at_each_call(&rt, alloc, &RUN_SMALL, script.as_bytes(), &mut prefixes)?;
    assert!(rt; files == Some(5));
    Ok(())
}
