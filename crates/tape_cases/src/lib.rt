// Tapes, sound and damaged, with what is listed for each.
#![tactic(auto)]

#[cfg(test)]
mod tests {
    use listing::list_bytes;
    use std::test::Fail;

    struct Case {
        tape: &'static [u8],
        listing: &'static str,
    }

    const CASES: &[Case] = &[
        // The worked tape.
        Case {
            tape: b"\x00\x00\x08\x00\x01\x01\x00\x01\x01\x03\x00\x05\x07\x02\x01\x05\x04\x00\x02\x01\x06\x05\x00\x02\x01\x06\x01\x01\x02\x01\x05\x04\x01",
            listing: "heading: manager Timid, store number, words 8, commit count 0, next rank 1\n1 start 0\n2 start 1\n3 write 0 5 7\n4 read 1 5\n5 seal 0\n6 read 1 6\n7 put 0\n8 read 1 6\n9 start 1\n10 read 1 5\n11 seal 1\nend 11\n",
        },
        // All eight kinds of item. A job is listed as it stands, also one above 7.
        Case {
            tape: b"\x01\x00\x08\x03\x04\x01\x07\x02\x08\x01\x03\xff\x01\x02\x03\x04\xff\xff\xff\xff\x0f\x05\x80\x01\x06\x09\x07\x7f\x08\x05Done.",
            listing: "heading: manager two-phase, store number, words 8, commit count 3, next rank 4\n1 start 7\n2 read 8 1\n3 write 255 2 3\n4 seal 4294967295\n5 put 128\n6 quit 9\n7 look 127\n8 Done.\nend 8\n",
        },
        // The least and the greatest number of each length, from one byte to five.
        Case {
            tape: b"\x00\x00\x08\x00\x01\x01\x00\x02\x7f\x80\x01\x02\xff\x7f\x80\x80\x01\x02\xff\xff\x7f\x80\x80\x80\x01\x03\xff\xff\xff\x7f\x80\x80\x80\x80\x01\xff\xff\xff\xff\x0f",
            listing: "heading: manager Timid, store number, words 8, commit count 0, next rank 1\n1 start 0\n2 read 127 128\n3 read 16383 16384\n4 read 2097151 2097152\n5 write 268435455 268435456 4294967295\nend 5\n",
        },
        // Headings alone. The fewest and the most words of each store; commit count and next rank may be any number.
        Case {
            tape: b"\x00\x00\x01\x00\x00",
            listing: "heading: manager Timid, store number, words 1, commit count 0, next rank 0\nend 0\n",
        },
        Case {
            tape: b"\x00\x00\x80\x20\xff\xff\xff\xff\x0f\x00",
            listing: "heading: manager Timid, store number, words 4096, commit count 4294967295, next rank 0\nend 0\n",
        },
        Case {
            tape: b"\x01\x01\x01\x00\xff\xff\xff\xff\x0f",
            listing: "heading: manager two-phase, store byte, words 1, commit count 0, next rank 4294967295\nend 0\n",
        },
        Case {
            tape: b"\x01\x01\x80\x20\x7f\x80\x01",
            listing: "heading: manager two-phase, store byte, words 4096, commit count 127, next rank 128\nend 0\n",
        },
        Case {
            tape: b"\x02\x02\x01\x80\x80\x01\xff\x7f",
            listing: "heading: manager Greedy, store window, words 1, commit count 16384, next rank 16383\nend 0\n",
        },
        Case {
            tape: b"\x02\x02\xf0\x1f\xff\xff\xff\xff\x0f\xff\xff\xff\xff\x0f",
            listing: "heading: manager Greedy, store window, words 4080, commit count 4294967295, next rank 4294967295\nend 0\n",
        },
        // No words, in each store.
        Case {
            tape: b"\x00\x00\x00\x00\x01",
            listing: "fault 7 2 0\n",
        },
        Case {
            tape: b"\x00\x01\x00\x00\x01",
            listing: "fault 7 2 0\n",
        },
        Case {
            tape: b"\x00\x02\x00\x00\x01",
            listing: "fault 7 2 0\n",
        },
        // Too many words: 4097, and in a window 4081 and 4096. What follows, missing or bad, is not looked at.
        Case {
            tape: b"\x00\x00\x81\x20",
            listing: "fault 7 2 0\n",
        },
        Case {
            tape: b"\x00\x01\x81\x20\x80\x00",
            listing: "fault 7 2 0\n",
        },
        Case {
            tape: b"\x00\x02\xf1\x1f",
            listing: "fault 7 2 0\n",
        },
        Case {
            tape: b"\x00\x02\x80\x20\x00\x01",
            listing: "fault 7 2 0\n",
        },
        // Unknown managers, 3 and 128. What follows, missing or bad, is not looked at.
        Case {
            tape: b"\x03",
            listing: "fault 11 0 0\n",
        },
        Case {
            tape: b"\x80\x01\x03\x00",
            listing: "fault 11 0 0\n",
        },
        // Unknown stores, 3 and 129. What follows, missing or bad, is not looked at.
        Case {
            tape: b"\x02\x03",
            listing: "fault 11 1 0\n",
        },
        Case {
            tape: b"\x00\x81\x01\x00",
            listing: "fault 11 1 0\n",
        },
        // Headings cut before each of their numbers; the first is the empty tape.
        Case {
            tape: b"",
            listing: "fault 9 0 0\n",
        },
        Case {
            tape: b"\x02",
            listing: "fault 9 1 0\n",
        },
        Case {
            tape: b"\x02\x02",
            listing: "fault 9 2 0\n",
        },
        Case {
            tape: b"\x02\x02\xf0\x1f",
            listing: "fault 9 4 0\n",
        },
        Case {
            tape: b"\x02\x02\xf0\x1f\x00",
            listing: "fault 9 5 0\n",
        },
        // Headings cut within a number, after one to four of its bytes.
        Case {
            tape: b"\x80",
            listing: "fault 9 1 0\n",
        },
        Case {
            tape: b"\x00\x80\x80",
            listing: "fault 9 3 0\n",
        },
        Case {
            tape: b"\x00\x00\xff\xff\xff",
            listing: "fault 9 5 0\n",
        },
        Case {
            tape: b"\x00\x00\x01\xff\xff\xff\xff",
            listing: "fault 9 7 0\n",
        },
        // Headings with a number that is not in its shortest form; this is told before its value is judged.
        Case {
            tape: b"\x83\x00",
            listing: "fault 10 0 0\n",
        },
        Case {
            tape: b"\x00\x80\x00",
            listing: "fault 10 1 0\n",
        },
        Case {
            tape: b"\x00\x00\x80\x80\x00",
            listing: "fault 10 2 0\n",
        },
        // A heading with a number over 32 bits.
        Case {
            tape: b"\x00\x00\x01\x00\xff\xff\xff\xff\x10",
            listing: "fault 10 4 0\n",
        },
        // Items with a number that is not in its shortest form.
        Case {
            tape: b"\x00\x00\x08\x00\x01\x01\x80\x00",
            listing: "heading: manager Timid, store number, words 8, commit count 0, next rank 1\nfault 10 6 1\n",
        },
        Case {
            tape: b"\x00\x00\x08\x00\x01\x01\x00\x02\x81\x00\x05",
            listing: "heading: manager Timid, store number, words 8, commit count 0, next rank 1\n1 start 0\nfault 10 8 2\n",
        },
        Case {
            tape: b"\x00\x00\x08\x00\x01\x03\x00\x80\x01\x80\x80\x80\x80\x00",
            listing: "heading: manager Timid, store number, words 8, commit count 0, next rank 1\nfault 10 9 1\n",
        },
        // Items with a number over 32 bits, seen at its fifth byte, whether more follows or the tape ends there.
        Case {
            tape: b"\x00\x00\x08\x00\x01\x04\xff\xff\xff\xff\x10\x05\x00",
            listing: "heading: manager Timid, store number, words 8, commit count 0, next rank 1\nfault 10 6 1\n",
        },
        Case {
            tape: b"\x00\x00\x08\x00\x01\x01\x00\x03\x00\x05\xff\xff\xff\xff\x10",
            listing: "heading: manager Timid, store number, words 8, commit count 0, next rank 1\n1 start 0\nfault 10 10 2\n",
        },
        Case {
            tape: b"\x00\x00\x08\x00\x01\x02\x00\xff\xff\xff\xff\x8f",
            listing: "heading: manager Timid, store number, words 8, commit count 0, next rank 1\nfault 10 7 1\n",
        },
        Case {
            tape: b"\x00\x00\x08\x00\x01\x05\x80\x80\x80\x80\x80\x01",
            listing: "heading: manager Timid, store number, words 8, commit count 0, next rank 1\nfault 10 6 1\n",
        },
        // Calls of each kind, cut before each of their numbers.
        Case {
            tape: b"\x00\x00\x08\x00\x01\x01",
            listing: "heading: manager Timid, store number, words 8, commit count 0, next rank 1\nfault 9 6 1\n",
        },
        Case {
            tape: b"\x00\x00\x08\x00\x01\x02",
            listing: "heading: manager Timid, store number, words 8, commit count 0, next rank 1\nfault 9 6 1\n",
        },
        Case {
            tape: b"\x00\x00\x08\x00\x01\x02\x00",
            listing: "heading: manager Timid, store number, words 8, commit count 0, next rank 1\nfault 9 7 1\n",
        },
        Case {
            tape: b"\x00\x00\x08\x00\x01\x01\x00\x03",
            listing: "heading: manager Timid, store number, words 8, commit count 0, next rank 1\n1 start 0\nfault 9 8 2\n",
        },
        Case {
            tape: b"\x00\x00\x08\x00\x01\x01\x00\x03\x00",
            listing: "heading: manager Timid, store number, words 8, commit count 0, next rank 1\n1 start 0\nfault 9 9 2\n",
        },
        Case {
            tape: b"\x00\x00\x08\x00\x01\x01\x00\x03\x00\x05",
            listing: "heading: manager Timid, store number, words 8, commit count 0, next rank 1\n1 start 0\nfault 9 10 2\n",
        },
        Case {
            tape: b"\x00\x00\x08\x00\x01\x04",
            listing: "heading: manager Timid, store number, words 8, commit count 0, next rank 1\nfault 9 6 1\n",
        },
        Case {
            tape: b"\x00\x00\x08\x00\x01\x05",
            listing: "heading: manager Timid, store number, words 8, commit count 0, next rank 1\nfault 9 6 1\n",
        },
        Case {
            tape: b"\x00\x00\x08\x00\x01\x06",
            listing: "heading: manager Timid, store number, words 8, commit count 0, next rank 1\nfault 9 6 1\n",
        },
        Case {
            tape: b"\x00\x00\x08\x00\x01\x07",
            listing: "heading: manager Timid, store number, words 8, commit count 0, next rank 1\nfault 9 6 1\n",
        },
        // Calls cut within a number.
        Case {
            tape: b"\x00\x00\x08\x00\x01\x07\x80",
            listing: "heading: manager Timid, store number, words 8, commit count 0, next rank 1\nfault 9 7 1\n",
        },
        Case {
            tape: b"\x00\x00\x08\x00\x01\x03\x00\x05\xff\xff\xff\xff",
            listing: "heading: manager Timid, store number, words 8, commit count 0, next rank 1\nfault 9 12 1\n",
        },
        // Unknown codes. A code is one byte and not a number, so 81 is unknown whatever follows.
        Case {
            tape: b"\x00\x00\x08\x00\x01\x00",
            listing: "heading: manager Timid, store number, words 8, commit count 0, next rank 1\nfault 11 5 1\n",
        },
        Case {
            tape: b"\x00\x00\x08\x00\x01\x01\x00\x09\x00",
            listing: "heading: manager Timid, store number, words 8, commit count 0, next rank 1\n1 start 0\nfault 11 7 2\n",
        },
        Case {
            tape: b"\x00\x00\x08\x00\x01\x81\x00\x00",
            listing: "heading: manager Timid, store number, words 8, commit count 0, next rank 1\nfault 11 5 1\n",
        },
        Case {
            tape: b"\x00\x00\x08\x00\x01\xff",
            listing: "heading: manager Timid, store number, words 8, commit count 0, next rank 1\nfault 11 5 1\n",
        },
        // Remarks before, between and after calls, of one byte and of 80; the least and the greatest byte of a remark.
        Case {
            tape: b"\x00\x00\x08\x00\x01\x08\x01 \x01\x00\x08\x50The water stood four decimetres above the mark at noon, and it was still rising.\x04\x00\x08\x01~",
            listing: "heading: manager Timid, store number, words 8, commit count 0, next rank 1\n1  \n2 start 0\n3 The water stood four decimetres above the mark at noon, and it was still rising.\n4 seal 0\n5 ~\nend 5\n",
        },
        // A remark that looks like the last line of a listing, and one with quotes and a backslash.
        Case {
            tape: b"\x00\x00\x08\x00\x01\x08\x05end 0\x08\x06\x22o\x5cp\x22 ",
            listing: "heading: manager Timid, store number, words 8, commit count 0, next rank 1\n1 end 0\n2 \"o\\p\" \nend 2\n",
        },
        // A remark without its length, and one whose length is not in its shortest form.
        Case {
            tape: b"\x00\x00\x08\x00\x01\x08",
            listing: "heading: manager Timid, store number, words 8, commit count 0, next rank 1\nfault 9 6 1\n",
        },
        Case {
            tape: b"\x00\x00\x08\x00\x01\x08\x81\x00o",
            listing: "heading: manager Timid, store number, words 8, commit count 0, next rank 1\nfault 10 6 1\n",
        },
        // Remarks of 0, 81, 128, 129 and 4294967295 bytes; the length is told whether the bytes are there or not.
        Case {
            tape: b"\x00\x00\x08\x00\x01\x08\x00",
            listing: "heading: manager Timid, store number, words 8, commit count 0, next rank 1\nfault 13 6 1\n",
        },
        Case {
            tape: b"\x00\x00\x08\x00\x01\x08\x51The water stood four decimetres above the mark at night, and it was still rising.",
            listing: "heading: manager Timid, store number, words 8, commit count 0, next rank 1\nfault 13 6 1\n",
        },
        Case {
            tape: b"\x00\x00\x08\x00\x01\x01\x00\x08\x80\x01",
            listing: "heading: manager Timid, store number, words 8, commit count 0, next rank 1\n1 start 0\nfault 13 8 2\n",
        },
        Case {
            tape: b"\x00\x00\x08\x00\x01\x08\x81\x01o",
            listing: "heading: manager Timid, store number, words 8, commit count 0, next rank 1\nfault 13 6 1\n",
        },
        Case {
            tape: b"\x00\x00\x08\x00\x01\x08\xff\xff\xff\xff\x0fo",
            listing: "heading: manager Timid, store number, words 8, commit count 0, next rank 1\nfault 13 6 1\n",
        },
        // Remarks cut before their bytes, and before the last one; bad bytes in a cut remark are not looked at.
        Case {
            tape: b"\x00\x00\x08\x00\x01\x08\x01",
            listing: "heading: manager Timid, store number, words 8, commit count 0, next rank 1\nfault 9 7 1\n",
        },
        Case {
            tape: b"\x00\x00\x08\x00\x01\x08\x05\x1fon\xff",
            listing: "heading: manager Timid, store number, words 8, commit count 0, next rank 1\nfault 9 11 1\n",
        },
        // Remarks with a bad byte: 31 as the first, 127 as the last, 128 and 255 between; of two, the first is told.
        Case {
            tape: b"\x00\x00\x08\x00\x01\x08\x03\x1fon",
            listing: "heading: manager Timid, store number, words 8, commit count 0, next rank 1\nfault 13 7 1\n",
        },
        Case {
            tape: b"\x00\x00\x08\x00\x01\x01\x00\x08\x03on\x7f",
            listing: "heading: manager Timid, store number, words 8, commit count 0, next rank 1\n1 start 0\nfault 13 11 2\n",
        },
        Case {
            tape: b"\x00\x00\x08\x00\x01\x08\x01o\x08\x03o\x80n",
            listing: "heading: manager Timid, store number, words 8, commit count 0, next rank 1\n1 o\nfault 13 11 2\n",
        },
        Case {
            tape: b"\x00\x00\x08\x00\x01\x08\x05o\xff\x1fno\x09",
            listing: "heading: manager Timid, store number, words 8, commit count 0, next rank 1\nfault 13 8 1\n",
        },
    ];

    #[test]
    fn listings(rt: HostRuntime) -> Result<(), Fail> {
        for case in CASES {
            let text = list_bytes(rt.alloc(), case.tape)?;
            assert_eq!(rt; text.as_str(), case.listing);
        }
        Ok(())
    }
}
