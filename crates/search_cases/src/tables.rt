//! Tables that are built once for several searches.

ghost use Rattle.std.specs.Prelude.{◌≡◌, length, IfOk};
ghost use Rattle.rx_joint.specs.Claims.{AreChosen};

use crate::made::term_of;
use field_seek::{Joint, Seen, seek_among};
use rx_auto::Scratch;
use rx_term::OutOfMemory;
use std::alloc::Global;
use std::test::Fail;

/// The tables of `/a.*`, `/b.*` and `.*c` over the texts that begin with `/`.
fn three(alloc: Global) -> Result<Joint, Fail>
    ensures { IfOk result (λ joint. length joint.terms ≡ 3) }
{
    let mut joint = Joint::new(alloc, &term_of(alloc, "/.*")?)?;
    joint.add(alloc, &term_of(alloc, "/a.*")?)?;
    joint.add(alloc, &term_of(alloc, "/b.*")?)?;
    joint.add(alloc, &term_of(alloc, ".*c")?)?;
    Ok(joint)
}

/// Whether the texts `/ab` and `ab` are tested rightly.
fn tests_are_right(alloc: Global, joint: &Joint) -> Result<bool, OutOfMemory>
    requires { length joint.now.terms ≡ 3 }
{
    let mut scratch = Scratch::new(alloc, joint.room())?;
    let valid = joint.is_valid(b"/ab", &mut scratch) && !joint.is_valid(b"ab", &mut scratch);
    let begins = joint.has(0, b"/ab", &mut scratch) && !joint.has(1, b"/ab", &mut scratch);
    let met = joint.meets(&[(0, true), (2, false)], b"/ab", &mut scratch);
    let unmet = joint.meets(&[(0, true), (2, true)], b"/ab", &mut scratch);
    Ok(joint.count() == 3 && valid && begins && met && !unmet)
}

/// What the search among the choice answers, where that stands the test.
fn told(
    alloc: Global,
    joint: &Joint,
    choice: &[(u32, bool)],
    cap: Option<u32>,
) -> Result<&'static str, OutOfMemory>
    requires { AreChosen joint.now.terms choice.now }
{
    let (told, stands) = match seek_among(alloc, joint, choice, cap)? {
        Seen::Found(text) => {
            let mut scratch = Scratch::new(alloc, joint.room())?;
            ("text", joint.meets(choice, &text, &mut scratch))
        }
        Seen::Empty(words) => ("closed", joint.closes(alloc, choice, &words)?),
        Seen::Capped(words) => ("capped", joint.are_apart(alloc, choice, &words)?),
    };
    Ok(if stands { told } else { "wrong" })
}

#[test]
fn one_joint_serves_several_searches(rt: HostRuntime) -> Result<(), Fail> {
    let joint = three(rt.alloc())?;
    assert!(rt; tests_are_right(rt.alloc(), &joint)?);
    assert_eq!(rt; told(rt.alloc(), &joint, &[], None)?, "text");
    assert_eq!(rt;
        told(rt.alloc(), &joint, &[(2, true), (0, true)], None)?,
        "text"
    );
    assert_eq!(rt;
        told(rt.alloc(), &joint, &[(0, true), (1, true)], None)?,
        "closed"
    );
    assert_eq!(rt;
        told(rt.alloc(), &joint, &[(0, true), (1, true)], Some(1))?,
        "capped"
    );
    assert_eq!(rt;
        told(rt.alloc(), &joint, &[(2, false), (2, true)], None)?,
        "closed"
    );
    Ok(())
}
