//! Whole runs in which each allocation fails once.
use super::serve;
use std::test::Fail;

// `rt try --test --fail-alloc N` lets one allocation of this test fail: for the text of a new key, or for the capacity
// for the first or the fifth pair. The test then prints `refused`. The lines of the key `a` that is present need no
// memory, so their answer is never `memory`. No second allocation fails, so the next run has all answers.
#[test]
fn answers_each_line_or_memory_where_one_is_refused(rt: HostRuntime) -> Result<(), Fail> {
    let input =
        "insert a 1\nlen\ninsert_at 1 b 2\nor_insert c 3\ninsert a 4\nor_insert a 9\ninsert d 5\ninsert e 6\nlist";
    let outputs = [
        "none\n1\nnone\nsome 3\nsome 1\nsome 4\nnone\nnone\na=4 b=2 c=3 d=5 e=6\n",
        "memory\n0\nrange\nsome 3\nnone\nsome 4\nnone\nnone\nc=3 a=4 d=5 e=6\n",
        "none\n1\nmemory\nsome 3\nsome 1\nsome 4\nnone\nnone\na=4 c=3 d=5 e=6\n",
        "none\n1\nnone\nmemory\nsome 1\nsome 4\nnone\nnone\na=4 b=2 d=5 e=6\n",
        "none\n1\nnone\nsome 3\nsome 1\nsome 4\nmemory\nnone\na=4 b=2 c=3 e=6\n",
        "none\n1\nnone\nsome 3\nsome 1\nsome 4\nnone\nmemory\na=4 b=2 c=3 d=5\n",
        "",
    ];
    for is_first in [true, false] {
        let mut written = Vec::new(rt.alloc());
        if written.reserve(256).is_ok() {
            let mut reader = input.as_bytes();
            serve(rt.alloc(), &mut reader, &mut written)?;
        }
        let output = str::from_utf8(&written).unwrap_or("not text");
        match outputs.iter().position(|wanted| *wanted == output) {
            Some(0) => return Ok(()),
            Some(_) if is_first => println!(rt; "refused")?,
            _ => assert!(rt; false, "{output}"),
        }
    }
    Ok(())
}

// The writer is an array, so there are two allocations: for the text of the key, and for the capacity of the map. The
// program prints the same text, whichever of them fails.
#[test]
fn answers_an_insertion_or_memory_if_it_is_refused(rt: HostRuntime) -> Result<(), Fail> {
    for is_first in [true, false] {
        let mut reader = b"insert a 1\nlen".as_slice();
        let mut output = [0; 9];
        serve(rt.alloc(), &mut reader, &mut output.as_mut_slice())?;
        if output == *b"none\n1\n\0\0" {
            return Ok(());
        }
        assert!(rt; is_first && output == *b"memory\n0\n");
        println!(rt; "refused")?;
    }
    Ok(())
}
