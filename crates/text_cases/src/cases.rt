//! Inputs, and what is written of them.
#[cfg(test)]
mod tests {
    use crate::toy::Toy;
    use std::alloc::{AllocError, Global};
    use std::process::Abort;
    use std::test::Fail;
    use text::run::run;

    // The action that a turn reports tells the kind: 1 by arrival, 2 by rank.
    fn written(heap: Global, input: &[u8]) -> Result<Vec<u8>, AllocError> {
        run::<Toy<1>, Toy<2>>(heap, input)
    }

    // An input, and what is written of it.
    type Case = (&'static [u8], &'static [u8]);

    const LETTERS: [Case; 9] = [
        (b"", b""),
        (b"\n", b"line 1 script 31 column 1\n"),
        (b"X 1", b"line 1 script 31 column 1\n"),
        (b"n 1 0 0 0 0", b"line 1 script 31 column 1\n"),
        (b"k 1 0 0 0 0", b"line 1 script 31 column 1\n"),
        (b"s 0 1 0 0\n", b"line 1 script 31 column 1\n"),
        (b"t 0", b"line 1 script 31 column 1\n"),
        (b" T 0", b"line 1 script 31 column 1\n"),
        (
            b"\n\nX",
            b"line 1 script 31 column 1\nline 2 script 31 column 1\nline 3 script 31 column 1\n",
        ),
    ];

    const NUMBERS: [Case; 22] = [
        (b"S", b"line 1 script 32 column 2\n"),
        (b"S ", b"line 1 script 32 column 3\n"),
        (b"S 0 1 0", b"line 1 script 32 column 8\n"),
        (b"S 0 1 0 ", b"line 1 script 32 column 9\n"),
        (b"S 0 1 0 0 ", b"line 1 script 32 column 10\n"),
        (b"S 0 1 0 0 0", b"line 1 script 32 column 10\n"),
        (b"S  0 1 0 0", b"line 1 script 32 column 3\n"),
        (b"S 0  1 0 0", b"line 1 script 32 column 5\n"),
        (b"S0 1 0 0", b"line 1 script 32 column 2\n"),
        (b"S 00000000001 1 0 0", b"line 1 script 32 column 3\n"),
        (b"S 0 1 4294967296 x", b"line 1 script 32 column 7\n"),
        (b"T 4294967296", b"line 1 script 32 column 3\n"),
        (b"T 0x", b"line 1 script 32 column 4\n"),
        (b"T x", b"line 1 script 32 column 3\n"),
        (b"T -1", b"line 1 script 32 column 3\n"),
        (b"T\t0", b"line 1 script 32 column 2\n"),
        (b"T 0\r\n", b"line 1 script 32 column 4\n"),
        (b"K 1", b"line 1 script 32 column 4\n"),
        (b"N 1 2 3 4", b"line 1 script 32 column 10\n"),
        (b"N 1 2 3 4 5 6", b"line 1 script 32 column 12\n"),
        (b"N 1 99999999999 x", b"line 1 script 32 column 5\n"),
        (b"N 1 2 3 4 5", b"ok\n"),
    ];

    const NOTES: [Case; 4] = [
        (b"#", b"#\n"),
        (b"# last", b"# last\n"),
        (b"#\n##\n", b"#\n##\n"),
        (
            b"#\x00\xff\xfe\x80\r\n#\xc3",
            b"#\x00\xff\xfe\x80\r\n#\xc3\n",
        ),
    ];

    const RUNS: [Case; 6] = [
        (b"S 0 1 0 0", b"line 1 script 33 column 1\n"),
        (b"T 4294967295", b"line 1 script 33 column 1\n"),
        (b"S 0000000001 1 0 0", b"line 1 script 33 column 1\n"),
        (
            b"N 0 0 0 0 0\nN 2 0 0 0 7\nN 2 0 0 0 0\nK 2 0 0 0 0\n",
            b"line 1 nub 8\nok\nline 3 script 33 column 1\nline 4 script 33 column 1\n",
        ),
        (
            b"N 1 0 0 0 7\nT 0\nS 1 1 0 9\nT 0\nS 2 1 0 9\n\nT 63\nT 64",
            b"ok\nT 3 7 1 18446744073709551615\nline 3 nub 2\nT 3 7 1 18446744073709551615\nok\nline 6 script 31 column 1\nT 3 9 1 18446744073709551615\nline 8 nub 1\n",
        ),
        (
            b"K 1 0 0 0 4294967295\n# ranked\nT 0",
            b"ok\n# ranked\nT 3 4294967295 2 18446744073709551615\n",
        ),
    ];

    fn all(rt: &impl Abort, heap: Global, cases: &[Case]) -> Result<(), Fail> {
        for (input, output) in cases {
            let out = written(heap, *input)?;
            assert_eq!(rt; out.as_slice(), *output);
        }
        Ok(())
    }

    #[test]
    fn letters(rt: HostRuntime) -> Result<(), Fail> {
        all(&rt, rt.alloc(), &LETTERS)
    }

    #[test]
    fn numbers(rt: HostRuntime) -> Result<(), Fail> {
        all(&rt, rt.alloc(), &NUMBERS)
    }

    #[test]
    fn notes(rt: HostRuntime) -> Result<(), Fail> {
        all(&rt, rt.alloc(), &NOTES)
    }

    #[test]
    fn runs(rt: HostRuntime) -> Result<(), Fail> {
        all(&rt, rt.alloc(), &RUNS)
    }

    // An input of 65,536 bytes is run, whether as one line or as so many; one byte more, and nothing is.
    #[test]
    fn long(rt: HostRuntime) -> Result<(), Fail> {
        let heap = rt.alloc();
        let note = vec![in heap; b'#'; 65_536]?;
        let out = written(heap, note.as_slice())?;
        assert_eq!(rt; out.len(), 65_537);
        let ends = vec![in heap; b'\n'; 65_536]?;
        let out = written(heap, ends.as_slice())?;
        assert_eq!(rt; out.len(), 1_954_974);
        let more = vec![in heap; b'#'; 65_537]?;
        let out = written(heap, more.as_slice())?;
        assert!(rt; out.as_slice() == b"line 0 script 34 column 1\n".as_slice());
        Ok(())
    }
}
