// Tests of the reader of scripts.
#![tactic(auto)]

#[cfg(test)]
mod tests {
    use machine::Form;
    use scanner::{Lines, first_line};
    use script::{read_form, read_line, script_limits, too_long};

    // The number of the line's refusal; none where it tells a form.
    fn refusal(line: &[u8]) -> Option<u8> {
        read_line(line).err().map(|refusal| refusal.number())
    }

    // Whether every line of the text is none of the forms.
    fn all_malformed(text: &[u8]) -> bool {
        Lines::of(text).all(|line| refusal(line) == Some(4))
    }

    #[test]
    fn stations_are_read(rt: HostRuntime) {
        assert_eq!(rt;
            read_form(b"(station 1 (benches 2) (takes 3) (holds 4) (next 5))"),
            Some(Form::Station {
                station: 1,
                benches: 2,
                takes: 3,
                holds: 4,
                next: Some(5),
            })
        );
        assert_eq!(rt;
            read_form(b"(station 31 (benches 8) (takes 1000000) (holds 4096) (last))"),
            Some(Form::Station {
                station: 31,
                benches: 8,
                takes: 1_000_000,
                holds: 4096,
                next: None,
            })
        );
    }

    #[test]
    fn orders_are_read(rt: HostRuntime) {
        assert_eq!(rt;
            read_form(b"(order 1 (at 2) (urgency 3) (due 4) (start 5))"),
            Some(Form::Order {
                order: 1,
                at: 2,
                urgency: 3,
                due: 4,
                start: 5,
            })
        );
    }

    #[test]
    fn other_forms_are_read(rt: HostRuntime) {
        for (line, form) in [
            (
                b"(withdraw 7 (at 8))".as_slice(),
                Form::Withdraw { order: 7, at: 8 },
            ),
            (
                b"(close 0 (at 4) (into 1))",
                Form::Close {
                    station: 0,
                    at: 4,
                    into: 1,
                },
            ),
            (b"(end 9)", Form::End { at: 9 }),
        ] {
            assert_eq!(rt; read_form(line), Some(form));
        }
    }

    #[test]
    fn spaces_and_ends_are_exact(rt: HostRuntime) {
        assert_eq!(rt; refusal(b"(end 9)"), None);
        assert!(rt;
            all_malformed(
                b"(end 9) \n (end 9)\n(end  9)\n( end 9)\n(end 9 )\n(end 9\n(END 9)\n\n(end 9))",
            ),
            "spaces and brackets"
        );
        assert!(rt;
            all_malformed(b"(end\t9)\n(end 9)\r\n(end\x009)\n(end \xff)"),
            "other bytes"
        );
        assert_eq!(rt;
            refusal(b"(end 9)\n"),
            Some(4),
            "the newline is no part of a line"
        );
        assert_eq!(rt; refusal(b""), Some(4), "an empty line");
    }

    #[test]
    fn shapes_are_exact(rt: HostRuntime) {
        assert!(rt;
            all_malformed(
                b"(station 0 (benches 1) (takes 5) (holds 1))\n(station 0 (benches 1) (takes 5) (holds 1) (last 1))\n(station 0 (benches 1) (takes 5) (holds 1) (next))\n(station 0 (takes 5) (benches 1) (holds 1) (last))",
            ),
            "stations"
        );
        assert!(rt;
            all_malformed(
                b"(order 0 (at 0) (urgency 0) (due 0))\n(withdraw 0)\n(close 0 (into 1) (at 4))\n(end)\n(end 1 2)\nend 1",
            ),
            "others"
        );
    }

    #[test]
    fn numerals_have_no_needless_zero(rt: HostRuntime) {
        assert_eq!(rt; read_form(b"(end 0)"), Some(Form::End { at: 0 }));
        assert_eq!(rt; refusal(b"(end 07)"), Some(4));
        assert!(rt;
            all_malformed(
                b"(end 00)\n(end )\n(end +7)\n(end -7)\n(end 0x7)\n(end 7.0)\n(withdraw 1 (at 01))",
            )
        );
    }

    #[test]
    fn large_numbers_are_told_as_the_largest(rt: HostRuntime) {
        for (line, at) in [
            (b"(end 4294967294)".as_slice(), 4_294_967_294),
            (b"(end 4294967295)", 4_294_967_295),
            (b"(end 4294967296)", 4_294_967_295),
            (
                b"(end 1234567890123456789012345678901234567890)",
                4_294_967_295,
            ),
        ] {
            assert_eq!(rt; read_form(line), Some(Form::End { at }));
        }
        assert_eq!(rt;
            refusal(b"(end 1234567890123456789012345678901234567890)"),
            None,
            "its range is tested later"
        );
        assert_eq!(rt;
            refusal(b"(station 0 (benches 1) (takes 0) (holds 1) (last))"),
            None
        );
    }

    #[test]
    fn lengths_are_bounded(rt: HostRuntime) {
        let line = [b'('; 121];
        assert_eq!(rt; refusal(&line[0..120]), Some(4));
        assert_eq!(rt; refusal(&line), Some(3));
        let script = [b'\n'; 65_537];
        assert!(rt; !too_long(&script[0..65_536]));
        assert!(rt; too_long(&script));
    }

    #[test]
    fn lines_are_parts_of_the_script(rt: HostRuntime) {
        let first = first_line(b"(end 9)\n\nlast");
        assert!(rt; first.bytes == b"(end 9)".as_slice());
        assert!(rt; first.rest == b"\nlast".as_slice());
        let second = first_line(first.rest);
        assert!(rt; second.bytes.is_empty());
        assert!(rt; second.rest == b"last".as_slice());
        let third = first_line(second.rest);
        assert!(rt;
            third.bytes == b"last".as_slice(),
            "the last line may lack its end"
        );
        assert!(rt; third.rest.is_empty());
        assert!(rt;
            first_line(b"last\n").rest.is_empty(),
            "no line begins behind the last end"
        );
        assert!(rt; first_line(b"").bytes.is_empty());
    }

    #[test]
    fn stations_set_limits(rt: HostRuntime) {
        let limits = script_limits(
            b"(station 0 (benches 1) (takes 5) (holds 0) (next 1))\n(station 31 (benches 8) (takes 1) (holds 4096) (last))",
        );
        assert_eq!(rt; (limits[0], limits[1]), (0, 65_535));
        assert_eq!(rt; (limits[30], limits[31]), (65_535, 4_096));
    }

    #[test]
    fn damaged_lines_set_none(rt: HostRuntime) {
        let limits = script_limits(
            b"\n(station 0 (benches 1) (takes 0) (holds 1) (last))\n(station 1 (benches 9) (takes 5) (holds 1) (last))\n(station 32 (benches 1) (takes 5) (holds 1) (last))\n(station 2 (benches 1) (takes 5) (holds 4097) (last))\n(station 3 (benches 1) (takes 5) (holds 1) (next 32))\n(station 4 (benches 1) (takes 5) (holds 7) (next 99999999999999999999999999))\n(station 5 (benches 1) (takes 5) (holds 07) (last))\n(order 6 (at 0) (urgency 0) (due 0) (start 0))\n(station 7 (benches 1) (takes 5) (holds 2) (last))\n(station 7 (benches 1) (takes 5) (holds 3) (last))",
        );
        assert_eq!(rt; (limits[0], limits[1]), (65_535, 65_535));
        assert_eq!(rt; (limits[2], limits[3]), (65_535, 65_535));
        assert_eq!(rt; (limits[4], limits[5]), (65_535, 65_535));
        assert_eq!(rt;
            (limits[6], limits[7]),
            (65_535, 3),
            "the last of two stations of a number"
        );
    }
}
