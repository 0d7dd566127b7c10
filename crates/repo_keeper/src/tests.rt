ghost use Rattle.std.specs.Prelude.{IfOk};
ghost use Rattle.key_elements.specs.Record.{IsElement};

use super::*;
use dp_base::{AesSize, Alg, KeyId, MAX_TICKS, MemDraw};
use key_elements::{Element, MAX_ELEMENTS, Reason, read_list};
use std::alloc::Global;
use std::test::Fail;

// The revocation of every key that was made before the date.
fn before(alloc: Global, date: u64) -> Result<Element, Fail>
    ensures { IfOk result IsElement }
{
    let reason = Reason::new(alloc, "")?;
    Ok(mass_revocation(date, reason)?)
}

// The record of the revocation of every key that was made before the first moment.
const FIRST: [u8; 10] = [3, 0, 0, 0, 0, 0, 0, 0, 0, 0];

// A keeper of so many revocations, whose calls with the numbers fail.
fn keeper(alloc: Global, len: u64, fail: &[u64]) -> Result<MemKeeper, Fail> {
    let mut bytes = Vec::new(alloc);
    for _ in 0..len {
        bytes.extend_from_slice(&FIRST)?;
    }
    let list = read_list(alloc, bytes.as_slice())?;
    Ok(MemKeeper::new(list, fail.to_vec(alloc)?))
}

// How many elements are read from a place on, or why none.
fn read_len(repo: &mut OwnRepo<MemKeeper>, alloc: Global, known: u64) -> Result<usize, RepoError> {
    Ok(Repo::<()>::read(repo, &mut (), alloc, known)?.len())
}

// What stands behind what was known, after one more element.
fn append_len(
    repo: &mut OwnRepo<MemKeeper>,
    alloc: Global,
    known: u64,
    e: &Element,
) -> Result<usize, RepoError>
    requires { IsElement e.now }
{
    Ok(repo.append(&mut (), alloc, known, e)?.len())
}

// Read, append, read again; the call with number 3, a put, fails and adds nothing.
#[test]
fn growing(rt: HostRuntime) -> Result<(), Fail> {
    let alloc = rt.alloc();
    let mut repo = OwnRepo::new(alloc, keeper(alloc, 2, &[4])?);
    let e = before(alloc, 9)?;
    assert_eq!(rt; read_len(&mut repo, alloc, 0), Ok(2));
    assert_eq!(rt; append_len(&mut repo, alloc, 1, &e), Ok(2));
    assert_eq!(rt; append_len(&mut repo, alloc, 3, &e), Err(RepoError::Failed));
    assert_eq!(rt; read_len(&mut repo, alloc, 3), Ok(0));
    assert_eq!(rt;
        read_len(&mut repo, alloc, 4),
        Err(RepoError::Short { have: 3 })
    );
    let mut kept = repo.into_keeper();
    let list = kept.load(alloc, 0)?;
    assert_eq!(rt; list.last(), Some(&e));
    kept.cut_to(1);
    assert_eq!(rt; kept.load(alloc, 0)?.len(), 1);
    kept.put(alloc, &e)?;
    assert_eq!(rt; kept.load(alloc, 1)?.first(), Some(&e));
    Ok(())
}

#[test]
fn full(rt: HostRuntime) -> Result<(), Fail> {
    let alloc = rt.alloc();
    let mut repo = OwnRepo::new(alloc, keeper(alloc, MAX_ELEMENTS, &[])?);
    let e = before(alloc, 9)?;
    let told = append_len(&mut repo, alloc, 0, &e);
    assert_eq!(rt; told, Err(RepoError::Full { count: 16_384 }));
    let told = repo.into_keeper().put(alloc, &e);
    assert_eq!(rt; told, Err(PutError::Failed));
    Ok(())
}

// docs/FORMATS.md, "Ids": the id of sixteen zero bytes.
#[test]
fn keys(rt: HostRuntime) -> Result<(), Fail> {
    let alloc = rt.alloc();
    let mut draw = MemDraw::new(Vec::from_elem(alloc, 0, 80)?, Vec::new(alloc));
    let alg = Alg::Cbc256(AesSize::A256);
    assert_eq!(rt;
        new_key(&mut draw, 1, 5, 5, alg),
        Err(MakeRefused::BadDates)
    );
    let late = MAX_TICKS + 1;
    assert_eq!(rt;
        new_key(&mut draw, 1, 5, late, alg),
        Err(MakeRefused::BadDates)
    );
    let Element::Key(key) = new_key(&mut draw, 1, 5, 6, alg)? else {
        return Err("another kind".into());
    };
    assert_eq!(rt; key.id, KeyId(0x0000_0000_0000_4000_8000_0000_0000_0000));
    assert_eq!(rt;
        (key.creation, key.activation, key.expiration, key.alg),
        (1, 5, 6, 3)
    );
    assert_eq!(rt; key.material, [0; 64]);
    assert_eq!(rt;
        new_key(&mut draw, 1, 5, 6, alg),
        Err(MakeRefused::DrawFault)
    );
    Ok(())
}

#[test]
fn revocations(rt: HostRuntime) -> Result<(), Fail> {
    let alloc = rt.alloc();
    let id = KeyId(7);
    let made = revocation(id, 5, Reason::new(alloc, "lost laptop")?)?;
    let reason = Reason::new(alloc, "lost laptop")?;
    assert_eq!(rt;
        made,
        Element::RevokeKey {
            id,
            date: 5,
            reason
        }
    );
    let late = revocation(id, MAX_TICKS + 1, Reason::new(alloc, "")?);
    assert_eq!(rt; late, Err(BadDates));
    Ok(())
}

#[test]
fn phrases(rt: HostRuntime) -> Result<(), Fail> {
    let alloc = rt.alloc();
    let repo = [
        (RepoError::Failed, "the repository failed"),
        (
            RepoError::Short { have: 2 },
            "the repository has only 2 elements",
        ),
        (
            RepoError::Full { count: 3 },
            "the repository is full with 3 elements",
        ),
        (RepoError::Memory, "no memory"),
    ];
    for (error, phrase) in repo {
        assert_eq!(rt; format!(in alloc; "{error}")?.as_str(), phrase);
    }
    let load = [
        (KeeperError::Failed, "loading failed"),
        (KeeperError::Short { have: 2 }, "only 2 elements are kept"),
        (KeeperError::Memory, "no memory"),
    ];
    for (error, phrase) in load {
        assert_eq!(rt; format!(in alloc; "{error}")?.as_str(), phrase);
    }
    for (error, phrase) in [
        (PutError::Failed, "putting failed"),
        (PutError::Memory, "no memory"),
    ] {
        assert_eq!(rt; format!(in alloc; "{error}")?.as_str(), phrase);
    }
    let dates = "the dates of a key are out of order or too late";
    assert_eq!(rt;
        format!(in alloc; "{}", MakeRefused::BadDates)?.as_str(),
        dates
    );
    let draw = "drawing random bytes failed";
    assert_eq!(rt;
        format!(in alloc; "{}", MakeRefused::DrawFault)?.as_str(),
        draw
    );
    assert_eq!(rt;
        format!(in alloc; "{BadDates}")?.as_str(),
        "a date is too late"
    );
    Ok(())
}
