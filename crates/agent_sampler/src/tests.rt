use crate::{Marks, Sampler, Skips, Verdict};

#[test]
fn marks_and_words(rt: HostRuntime) {
    let skips = Skips::new(&[3, 2]).expect(&rt, "skip numbers");
    let mut sampler = Sampler::new(skips, u32::MAX, u32::MAX, u32::MAX);
    for marked in [false, false, true, false, true, false, false, true] {
        assert!(rt; (sampler.observe() == Verdict::Marked) == marked);
    }
    assert!(rt; sampler.issue() == u32::MAX && sampler.issue() == 0);
    sampler.drop_one();
    let Marks { next, pool, drops } = sampler.marks();
    assert!(rt; next == 1 && pool == 7 && drops == 0);
    sampler.restart();
    assert!(rt; sampler.issue() == u32::MAX);
}

#[test]
fn lists_of_skips(rt: HostRuntime) {
    assert!(rt; Skips::new(&[]).is_none() && Skips::new(&[1, 0]).is_none());
    assert!(rt; Skips::new(&[1; 1025]).is_none() && Skips::new(&[1; 1024]).is_some());
}
