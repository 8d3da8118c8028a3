// The listing of a device image: what the program purselist prints.
#![tactic(auto)]

ghost use Rattle.std.specs.Prelude.{◌≡◌, length};
ghost use Rattle.spec.specs.Disk.{blocks_of};
ghost use Rattle.spec.specs.Bitmap.{bits_of, free_bits};
ghost use Rattle.transaction.specs.Volumes.{working};
ghost use Rattle.text.specs.Written.{Written, Put};
ghost use Rattle.listing.specs.Steps.{span_text, runs_text, line_text, lines_text, files_lines, refused_line, recover_line, opened_lines, device_text, told_text, used, used_from, Listed};

use bitmap::free_of;
use block::block_in;
use extents::{Runs, Stretch};
use header::targets_in;
use inode::{Inode, InodeNumber};
use spec::{DiskBlock, Extent, FileBlock, Limits, Phase, Refusal, Session};
use store::open_store;
use text::Writer;
use transaction::WorkingCopy;

// "at most 65,536 bytes"
pub const LONGEST_IMAGE: usize = 65536;

// Bytes enough for any text: listing-few in proofs/Length.antt.
pub const LISTING_SIZE: usize = 8785;

// An extent: first+count.
fn put_extent(w: &mut Writer, e: Extent)
    ensures { Put w.old w.new (span_text e) }
{
    w.put_number(e.first as usize);
    w.put(b'+');
    w.put_number(e.count as usize);
}

// The extents of record i's file, or - for none: the first, and the others each behind a comma.
fn put_runs(w: &mut Writer, copy: &WorkingCopy, i: InodeNumber)
    ensures { Put w.old w.new (runs_text (working copy.now) i.n) }
{
    let all = Stretch {
        i,
        from: FileBlock(0),
        n: Limits::MAX_FILE_BLOCKS,
    };
    let mut runs = Runs::of(copy, all);
    match runs.next() {
        Some(first) => {
            put_extent(w, first);
            for e in runs {
                w.put(b',');
                put_extent(w, e);
            }
        }
        None => w.put(b'-'),
    }
}

// The line of record i's file: name, size, extents. Nothing for an empty record.
fn put_line(w: &mut Writer, copy: &WorkingCopy, i: InodeNumber)
    ensures { Put w.old w.new (line_text (working copy.now) i.n) }
{
    let inode = Inode::of(copy, i);
    if inode.is_empty() {
        return;
    }
    w.put_hex(&inode.name());
    w.put(b' ');
    w.put_number(inode.size() as usize);
    w.put(b' ');
    put_runs(w, copy, i);
    w.put(b'\n');
}

// A line for each file, in record order.
fn put_lines(w: &mut Writer, copy: &WorkingCopy)
    ensures { Put w.old w.new (lines_text (working copy.now) 0) }
{
    for i in 0..Limits::INODE_COUNT {
        put_line(w, copy, InodeNumber { n: i });
    }
}

// Whether there is a record i, and it is that of a file. By is_some_and what it answers of a record stays open: nothing is told of the closure.
fn is_used(copy: &WorkingCopy, i: usize) -> bool
    ensures { result ≡ used (working copy.now) i }
{
    let Some(i) = InodeNumber::of(i) else {
        return false;
    };
    !Inode::of(copy, i).is_empty()
}

fn count_files(copy: &WorkingCopy) -> usize
    ensures { result ≡ length (used_from (working copy.now) 0) }
{
    (0..Limits::INODE_COUNT)
        .filter(|i| is_used(copy, *i))
        .count()
}

fn count_free(copy: &WorkingCopy) -> usize
    ensures { result ≡ free_bits (bits_of (working copy.now 33)) }
{
    free_of(copy.block(DiskBlock(Limits::BITMAP_BLOCK)))
}

// The listing: number of files and free blocks, and the files.
fn put_files(w: &mut Writer, copy: &WorkingCopy)
    ensures { Put w.old w.new (files_lines (working copy.now)) }
{
    w.put_bytes(b"files ");
    w.put_number(count_files(copy));
    w.put_bytes(b" free ");
    w.put_number(count_free(copy));
    w.put(b'\n');
    put_lines(w, copy);
}

// A word, a number and the line's end.
fn put_told(w: &mut Writer, word: &[u8], n: usize)
    ensures { Put w.old w.new (told_text word.now n) }
{
    w.put_bytes(word);
    w.put_number(n);
    w.put(b'\n');
}

fn put_refused(w: &mut Writer, why: Refusal)
    ensures { Put w.old w.new (refused_line why) }
{
    put_told(w, b"refused ", why.number() as usize);
}

// How many blocks the log lists.
pub fn put_recover(w: &mut Writer, image: &[u8])
    ensures { Put w.old w.new (recover_line (blocks_of image.now)) }
{
    let t = targets_in(block_in(image, DiskBlock(0)));
    put_told(w, b"recover ", t.len());
}

// What an accepted open leads to: the listing, or that there is a log to recover.
fn put_opened(w: &mut Writer, image: &[u8], phase: Phase)
    ensures { Put w.old w.new (opened_lines (blocks_of image.now) phase) }
{
    match phase {
        Phase::Ready => {
            put_files(w, &WorkingCopy::of_device(image));
        }
        Phase::Recovering(_) => put_recover(w, image),
        Phase::Closed | Phase::Committing(_) => {}
    }
}

// The text for an image of any length, put to the front of `out`.
pub fn list_device(image: &[u8], out: &mut [u8]) -> usize
    ensures { Written out.old 0 (device_text image.now) out.new result }
{
    let mut w = Writer::new(out);
    let opened = open_store(image, Session::never_opened());
    match opened.answer {
        Err(why) => put_refused(&mut w, why),
        Ok(_) => put_opened(&mut w, image, opened.session.phase),
    }
    w.at
}

// The text for the bytes of an image, put to the front of `out` as far as it reaches; how many bytes were put.
pub fn list_image(image: &[u8], out: &mut [u8]) -> usize
    ensures { Listed image.now out.old out.new result }
{
    if LONGEST_IMAGE < image.len() {
        let mut w = Writer::new(out);
        put_refused(&mut w, Refusal::DeviceSize);
        return w.at;
    }
    list_device(image, out)
}
