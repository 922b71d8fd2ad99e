// The names of a file's maps: object domains, subject domains and functions.
ghost use Rattle.std.specs.Prelude.{◌≤◌};
ghost use Rattle.paper.specs.Limits.{most_domains, most_members};

use crate::names::Names;

#[derive(Clone, Copy)]
pub struct MapNames<'a> {
    pub objects: Names<'a>,
    pub subjects: Names<'a>,
    pub functions: Names<'a>,
    ghost few_objects: { objects.count ≤ most_domains },
    ghost few_subjects: { subjects.count ≤ most_domains },
    ghost few_functions: { functions.count ≤ most_members },
}
