//! Histories that agree with written accounts, and some that don't, each by one field of agreeing.

use rcu_agreement_checker::{Account, agrees, witness};
use rcu_world_checker::is_closed;
use rcu_world_law::marks::Mark;
use rcu_world_law::marks::Mark::{Accepted, Back, Opened, Passed, Ran, Reported, Shut};
use std::alloc::{AllocError, Global};
use std::process::Abort;
use std::test::Fail;

// The account of a processor that accepted these keys, with these stamps, of which the first ran, at these sights; with the turn
// that was seen, and the count at which it was shut.
fn account_with<'a>(
    alloc: Global,
    keys: &'a [u64],
    stamps: &'a [u64],
    readies: &'a [u64],
    reports: u64,
    ends: &'a [u64; 2],
) -> Result<Account, AllocError> {
    let (ran, back) = keys.split_at(readies.len().min(keys.len()));
    let (turns, shuts) = ends.split_at(1);
    let lists = [keys, stamps, ran, readies, back, turns, shuts];
    let [keys, stamps, ran, readies, back, turns, shuts] = lists.try_map(|list| list.to_vec(
        alloc,
    ))?;
    Ok(Account {
        keys,
        stamps,
        ran,
        readies,
        back,
        reports,
        turns,
        shuts,
    })
}

// The same, where so many were seen to have run.
fn account_at(
    alloc: Global,
    keys: &[u64],
    stamps: &[u64],
    readies: &[u64],
    reports: u64,
    turn: u64,
) -> Result<Account, AllocError> {
    let ends = [turn, keys.len() as u64];
    account_with(alloc, keys, stamps, readies, reports, &ends)
}

// The same, where all that ran were seen to have run.
fn account(
    alloc: Global,
    keys: &[u64],
    stamps: &[u64],
    readies: &[u64],
    reports: u64,
) -> Result<Account, AllocError> {
    let turn = readies.len().min(keys.len()) as u64;
    account_at(alloc, keys, stamps, readies, reports, turn)
}

// The history in number order, if it agrees with the accounts and counts.
fn agreed(
    alloc: Global,
    accounts: &[Account],
    counts: &[Vec<u64>],
) -> Result<Option<Vec<Mark>>, AllocError> {
    let history = witness(alloc, accounts, counts)?;
    if !agrees(accounts, counts, history.as_slice()) {
        return Ok(None);
    }
    Ok(Some(history))
}

// The history in number order of two processors and a barrier, of which both sides agree.
fn of_two(alloc: Global) -> Result<Option<Vec<Mark>>, AllocError> {
    let accounts = [
        account(alloc, &[7, 8], &[0, 4], &[4, 8], 2)?,
        account(alloc, &[7], &[0], &[], 2)?,
    ];
    let counts = [vec![in alloc; 1, 0]?];
    agreed(alloc, &accounts, &counts)
}

#[test]
fn in_the_order_of_numbers(rt: HostRuntime) -> Result<(), Fail> {
    let wanted = [
        Accepted(0, 7),
        Opened(0),
        Accepted(1, 7),
        Reported(0),
        Reported(1),
        Accepted(0, 8),
        Ran(0, 7),
        Passed(0),
        Reported(0),
        Reported(1),
        Ran(0, 8),
        Shut(0),
        Shut(1),
        Back(1, 7),
    ];
    let history = of_two(rt.alloc())?.ok_or("they don't agree")?;
    let found = history.as_slice();
    assert!(rt; found == wanted.as_slice() && is_closed(2, found));
    Ok(())
}

// Whether the witness of one processor, which ran all, agrees, and whether it is closed.
fn of_one(
    alloc: Global,
    stamps: &[u64],
    readies: &[u64],
    reports: u64,
) -> Result<(bool, bool), AllocError> {
    let accounts = [account(alloc, &[1, 2, 3], stamps, readies, reports)?];
    let history = witness(alloc, &accounts, &[])?;
    let agrees = agrees(&accounts, &[], history.as_slice());
    Ok((agrees, is_closed(1, history.as_slice())))
}

#[test]
fn numbers_that_fall(rt: HostRuntime) -> Result<(), Fail> {
    let rows = [
        // (stamps, and sights, which a real run doesn't have)
        ([8, 4, 0], [12, 12, 12], 3, true),
        ([0, 0, 0], [12, 8, 4], 3, true),
        // (no grace period between stamp and sight)
        ([0, 0, 0], [1, 8, 8], 2, false),
        ([1, 1, 1], [4, 4, 4], 2, false),
        // (that grace period wasn't passed)
        ([0, 4, 4], [4, 8, 8], 1, false),
    ];
    for (stamps, readies, reports, closed) in rows {
        let found = of_one(rt.alloc(), &stamps, &readies, reports)?;
        assert_eq!(rt;
            found,
            (true, closed),
            "stamps {stamps:?}, sights {readies:?}"
        );
    }
    Ok(())
}

// Whether a history agrees with the account of one processor, which accepted two callbacks and ran the first, and with a barrier
// that counts that one, where so many were seen to have run.
fn agrees_with(alloc: Global, turn: u64, history: &[Mark]) -> Result<bool, AllocError> {
    let accounts = [account_at(alloc, &[1, 2], &[0, 4], &[4], 1, turn)?];
    let counts = [vec![in alloc; 1]?];
    Ok(agrees(&accounts, &counts, history))
}

// The history that all those below differ from.
const AGREEING: [Mark; 8] = [
    Mark::Accepted(0, 1),
    Mark::Opened(0),
    Mark::Reported(0),
    Mark::Ran(0, 1),
    Mark::Passed(0),
    Mark::Accepted(0, 2),
    Mark::Shut(0),
    Mark::Back(0, 2),
];

// That history with other marks from a place on.
fn other(place: usize, marks: &[Mark]) -> [Mark; 8] {
    let mut history = AGREEING;
    for (at, mark) in marks.iter().enumerate() {
        let here = place.saturating_add(at);
        if here < 8 {
            history[here] = *mark;
        }
    }
    history
}

// Marks, and the place where a history with them differs by a field.
type Other<'a> = (&'a str, usize, &'a [Mark]);

// None of these histories agrees.
fn expect_refused(rt: &impl Abort, alloc: Global, others: &[Other<'_>]) -> Result<(), Fail> {
    for (field, place, marks) in others {
        let found = agrees_with(alloc, 1, &other(*place, marks))?;
        assert!(rt; !found, "{field} at {place}");
    }
    Ok(())
}

#[test]
fn fields_of_lists(rt: HostRuntime) -> Result<(), Fail> {
    let alloc = rt.alloc();
    let whole = agrees_with(alloc, 1, &AGREEING)?;
    let cut = agrees_with(alloc, 1, &AGREEING[..7])?;
    assert_eq!(rt; (whole, cut), (true, false));
    expect_refused(
        &rt,
        rt.alloc(),
        &[
            ("accepted_is", 5, &[Accepted(0, 3)]),
            ("accepted_is", 5, &[Accepted(1, 2)]),
            ("ran_is", 3, &[Ran(0, 2)]),
            ("back_is", 7, &[Back(0, 1)]),
            ("reports_is", 2, &[Reported(1)]),
        ],
    )
}

#[test]
fn fields_of_places(rt: HostRuntime) -> Result<(), Fail> {
    expect_refused(
        &rt,
        rt.alloc(),
        &[
            ("stamped", 0, &[Reported(0), Opened(0), Accepted(0, 1)]),
            ("seen", 2, &[Ran(0, 1), Reported(0)]),
            ("shut_first", 6, &[Back(0, 2), Shut(0)]),
            ("shut", 5, &[Shut(0), Accepted(0, 2)]),
        ],
    )
}

#[test]
fn fields_of_barriers(rt: HostRuntime) -> Result<(), Fail> {
    // `polled`
    assert!(rt; !agrees_with(rt.alloc(), 0, &AGREEING)?);
    let late = [Reported(0), Ran(0, 1), Accepted(0, 2), Opened(0), Passed(0)];
    expect_refused(
        &rt,
        rt.alloc(),
        &[
            ("opened", 1, &[Shut(1)]),
            ("opened", 1, &[Passed(0), Reported(0), Ran(0, 1), Opened(0)]),
            ("counted", 1, &late),
            ("passed", 3, &[Passed(0), Ran(0, 1)]),
        ],
    )
}
