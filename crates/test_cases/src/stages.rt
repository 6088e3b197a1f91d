//! The faults of one stage of a folder.
use test_case_lines::{Mistake, Report, Sight};
use test_world::World;

/// `stage NUMBER DEPTH,.. FOLDER [PROFILE]`: compares the lines of the faults of one stage of a
/// folder that can be a tree, the same at each depth, beside a profile where one is given.
pub(crate) fn see_stage(sight: &Sight<'_>, words: &[&str], world: &World, report: &mut Report) {
    match words {
        [number, depths, name] => see(sight, world, *name, None, (*number, *depths), report),
        [number, depths, name, file] => {
            // no profile is empty
            let profile = Some(world.file(*file).unwrap_or(&[]));
            see(sight, world, *name, profile, (*number, *depths), report);
        }
        _ => report.text.fail(Mistake::Command),
    }
}

fn see(
    sight: &Sight<'_>,
    world: &World,
    name: &str,
    profile: Option<&[u8]>,
    asked: (&str, &str),
    report: &mut Report,
) {
    match world.tree(name, 0) {
        Ok(mut tree) => test_case_lines::see_stage(sight, &mut tree, profile, asked, report),
        Err(mistake) => report.text.fail(mistake),
    }
}
