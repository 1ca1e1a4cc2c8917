use std::test::Fail;
use tk_pool::PagePool;

#[test]
fn pages_reserved_taken_and_given(rt: HostRuntime) -> Result<(), Fail> {
    let mut pool = PagePool::new(rt.alloc(), 64);
    assert!(rt; pool.spare() == 0);
    pool.reserve(rt.alloc(), 2).ok().ok_or("memory")?;
    assert!(rt; pool.spare() == 2);
    let mut page = pool.take();
    assert!(rt; pool.spare() == 1);
    page.bytes_mut().fill(7);
    assert!(rt; page.bytes() == [7; 64].as_slice());
    pool.give(page);
    assert!(rt; pool.spare() == 2);
    // there are enough already
    pool.reserve(rt.alloc(), 1).ok().ok_or("memory")?;
    assert!(rt; pool.spare() == 2);
    Ok(())
}
