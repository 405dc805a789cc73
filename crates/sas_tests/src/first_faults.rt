//! The text of the lamp, a task with one variable and one operator, and the first line at fault where it is changed or cut.

use crate::reading::{Refused, assert_refused, is_cut, is_read_as, is_refused, with_line};
use crate::tasks::LAMP;
use sas_reader::SasPlace;
use std::alloc::AllocError;
use std::test::*;

static REFUSED: &[Refused] = &[
    (19, b"0 2", 19, SasPlace::Groups),
    (22, b"01", 22, SasPlace::State),
    (33, b"0 0 1", 33, SasPlace::Operators),
    (34, b"2", 34, SasPlace::Operators),
    (34, b"0", 34, SasPlace::Operators),
    (37, b"x\n", 37, SasPlace::End),
    (30, b"flip  ", 30, SasPlace::Operators),
];

// Three lines behind the greatest count.
const FEW_LINES: &[u8] = b"begin_version
3
end_version
begin_metric
0
end_metric
18446744073709551615
begin_variable
var0
-1
";

static PLACE_TEXTS: &[(SasPlace, &str)] = &[
    (SasPlace::Version, "malformed version"),
    (SasPlace::Metric, "malformed metric"),
    (SasPlace::Variables, "malformed variable"),
    (SasPlace::Groups, "malformed mutex group"),
    (SasPlace::State, "malformed state"),
    (SasPlace::Goal, "malformed goal"),
    (SasPlace::Operators, "malformed operator"),
    (SasPlace::Rules, "malformed rule"),
    (SasPlace::End, "text after the end"),
];

#[test]
fn the_lamp_is_read(rt: HostRuntime) -> Result<(), AllocError> {
    let lamp = LAMP.as_bytes();
    let spaced = with_line(rt.alloc(), lamp, 30, b"flip ")?;
    assert!(rt; is_read_as(rt.alloc(), lamp, lamp)? && is_read_as(rt.alloc(), &spaced, lamp)?);
    Ok(())
}

#[test]
fn the_first_line_at_fault_is_told(rt: HostRuntime) -> Result<(), AllocError> {
    assert_refused(&rt, rt.alloc(), LAMP.as_bytes(), REFUSED);
    assert!(rt;
        is_refused(rt.alloc(), b"", 1, SasPlace::Version)
            && is_refused(rt.alloc(), FEW_LINES, 11, SasPlace::Variables)
            && is_cut(rt.alloc(), LAMP.as_bytes(), 22, SasPlace::State)?
    );
    Ok(())
}

#[test]
fn each_section_has_its_text(rt: HostRuntime) {
    for row in PLACE_TEXTS {
        let (place, text) = *row;
        assert!(rt; place.text() == text, "{text}");
    }
}
