// The commands on one image: check, new, get and put.
use crate::files::{Target, bytes_of, input, io_stop, put_back};
use crate::images::{Facts, facts_of, header_of};
use crate::questions::Failed;
use crate::stop::Stop;
use crate::words::{add_lines, number_word, sum_of};
use image::fault::Fault;
use image::header::Header;
use image::make::new_header;
use image::shelf::ShelfImage;
use image::work::WorkImage;
use std::alloc::{AllocError, Global};
use std::fs::File;
use std::io::Write;
use std::{fs, io};
use volume::Volume;
use volume::answers::{ReadRefusal, ResultByte};

// Not as a map's, which have other words, and end after twenty.
fn lost_lines(heap: Global, facts: &Facts) -> Result<String, AllocError> {
    if facts.lost.is_empty() {
        return String::from_str(heap, "lost    none\n");
    }
    let sum = sum_of(facts.lost.as_slice());
    let mut out = format!(in heap; "lost    {sum}\n")?;
    add_lines(&mut out, "        ", facts.lost.as_slice())?;
    Ok(out)
}

pub(crate) fn check(rt: &HostRuntime, path: &str) -> Result<(), Stop> {
    let facts = facts_of(rt, path)?;
    let Header { count, map, blocks } = facts.head;
    let length = facts.length;
    println!(rt; "image   {path}")?;
    println!(rt; "blocks  {count}, from byte {blocks}")?;
    println!(rt; "map     from byte {map}")?;
    println!(rt; "length  {length} bytes")?;
    rt.print(lost_lines(rt.alloc(), &facts)?)?;
    Ok(())
}

// The header, and 513 zero bytes for each block behind it, those of 64 blocks in one piece. Not `io::copy`, whose pieces are a quarter of that and
// are filled anew each time.
fn write_image(file: &mut File, header: &[u8; 16], count: u32) -> io::Result<()> {
    let zeros = [0u8; 64 * 513];
    file.write_all(header)?;
    for _ in 0..count / 64 {
        file.write_all(&zeros)?;
    }
    let rest = 513 * (count % 64) as usize;
    file.write_all(&zeros[..rest])?;
    file.sync_all()
}

pub(crate) fn new(rt: &HostRuntime, path: &str, word: &str) -> Result<(), Stop> {
    let heap = rt.alloc();
    let count = number_word(heap, "blocks", word)?;
    let Some(header) = new_header(count) else {
        let failed = Failed::from(Fault::Count);
        return Err(Stop::said(format!(in heap; "{path}: {failed} (no file is made)")));
    };
    let mut file = File::create_new(rt, path).map_err(|e| io_stop(heap, path, e))?;
    write_image(&mut file, &header, count).map_err(|e| {
        let rest = match fs::remove_file(rt, path) {
            Ok(()) => "the part file is removed",
            Err(_) => "a part file is left",
        };
        Stop::said(format!(in heap; "{path}: writing failed ({e}); {rest}"))
    })
}

// Path and word as the command line has them: the second word of `new` is no block, so no struct serves all.
// Why the block of that word is refused, in an image of that many blocks.
fn refused_block(heap: Global, path: &str, word: &str, count: u32, refusal: ReadRefusal) -> Stop {
    let code = Err(refusal).byte();
    Stop::said(match refusal {
        ReadRefusal::Lost => format!(in heap; "{path}: block {word} is lost ({code:02X}h)"),
        ReadRefusal::Beyond => format!(in heap;
            "{path}: block {word} is beyond ({code:02X}h): the image has {count} blocks"
        ),
    })
}

// As `put`, it begins with the image's bytes and header, which both go on using, so that no function can hand them over in one piece.
pub(crate) fn get(rt: &HostRuntime, path: &str, word: &str) -> Result<(), Stop> {
    let heap = rt.alloc();
    let n = number_word(heap, "block", word)?;
    let bytes = bytes_of(rt, path)?;
    let head = header_of(heap, path, bytes.as_slice())?;
    let image = ShelfImage::new(bytes.as_slice());
    let mut buffer = [0u8; 512];
    image.read(n, &mut buffer).map_err(|refusal| refused_block(
        heap, path, word, head.count, refusal,
    ))?;
    let mut out = rt.stdout();
    out.write_all(&buffer)?;
    out.flush()?;
    Ok(())
}

// The 512 bytes of standard input.
fn input_block(rt: &HostRuntime) -> Result<[u8; 512], Stop> {
    let heap = rt.alloc();
    let bytes = input(rt, 513)?;
    <[u8; 512]>::try_from(bytes.as_slice()).map_err(|_| {
        Stop::said(match bytes.len() {
            n @ 0..512 => format!(in heap;
                "standard input has {n} bytes; a block is exactly 512 (nothing is written)"
            ),
            _ => format!(in heap;
                "standard input has more than 512 bytes; a block is exactly 512 (nothing is written)"
            ),
        })
    })
}

// Where block n goes in the file: with its map byte, where that is not 0 yet.
fn target_of(head: Header, bytes: &[u8], n: u32) -> Option<Target> {
    let block = head.block_byte(n)?;
    let map = head.map_byte(n)?;
    Some(Target {
        block,
        map: (bytes.get(map as usize) != Some(&0)).then_some(map),
    })
}

pub(crate) fn put(rt: &HostRuntime, path: &str, word: &str) -> Result<(), Stop> {
    let heap = rt.alloc();
    let n = number_word(heap, "block", word)?;
    let bytes = bytes_of(rt, path)?;
    let head = header_of(heap, path, bytes.as_slice())?;
    let beyond = || refused_block(heap, path, word, head.count, ReadRefusal::Beyond);
    let target = target_of(head, bytes.as_slice(), n).ok_or_else(beyond)?;
    let block = input_block(rt)?;
    let mut image = WorkImage::new(bytes);
    image.write(n, &block).map_err(|_| beyond())?;
    put_back(rt, path, target, &block)
}
