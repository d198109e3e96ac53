use address::ipv4::{Ipv4, Prefix4};
use address::kind::Address;
use filter::policy::{Policy, PolicyRefusal};
use filter::rule::{Action, Rule};
use std::test::Fail;
use test_support::values::ip;

// Why the rules are no policy, or none.
fn refusal(rules: &[Rule<Prefix4>]) -> Option<PolicyRefusal> {
    Policy::<Ipv4>::new(rules).err()
}

// A rule for 10.0.0.0/8 with these lengths.
fn rule(ge: u8, le: u8) -> Result<Rule<Prefix4>, Fail> {
    Ok(Rule {
        action: Action::Permit,
        prefix: ip(0x0a00_0000).prefix(8)?,
        ge,
        le,
    })
}

// At most 64 rules, each with length ≤ ge ≤ le ≤ width; the number of rules is tested first, and the lowest bad rule is named.
#[test]
fn policies(rt: HostRuntime) -> Result<(), Fail> {
    let good = rule(8, 32)?;
    let rules = [good; 65];
    assert_eq!(rt; refusal(&[]), None);
    assert_eq!(rt; refusal(&rules[..64]), None);
    assert_eq!(rt; refusal(&rules), Some(PolicyRefusal::TooManyRules));
    let bad = [
        good,
        rule(8, 8)?,
        rule(32, 32)?,
        rule(9, 8)?,
        rule(7, 32)?,
        rule(8, 33)?,
    ];
    assert_eq!(rt; refusal(&bad[..3]), None);
    assert_eq!(rt; refusal(&bad), Some(PolicyRefusal::BadRule { index: 3 }));
    assert_eq!(rt;
        refusal(&bad[4..]),
        Some(PolicyRefusal::BadRule { index: 0 })
    );
    assert_eq!(rt;
        refusal(&bad[5..]),
        Some(PolicyRefusal::BadRule { index: 0 })
    );
    let many = [rule(7, 32)?; 65];
    assert_eq!(rt; refusal(&many), Some(PolicyRefusal::TooManyRules));
    assert_eq!(rt;
        refusal(&many[..64]),
        Some(PolicyRefusal::BadRule { index: 0 })
    );
    assert_eq!(rt; PolicyRefusal::TooManyRules.number(), 16);
    assert_eq!(rt; PolicyRefusal::BadRule { index: 3 }.number(), 17);
    Ok(())
}
