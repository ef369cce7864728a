//! What holds of the pages file: each law is a function that does nothing.
ghost use Rattle.std.specs.Prelude.{◌≡◌, ◌+◌, ◌*◌, List, length};
ghost use Rattle.std.specs.List.{AllByRecursion};
ghost use Rattle.launch_platform.specs.Machine.{Entry, Context};
ghost use Rattle.pages_file.specs.PagesFile.{pages_file};

/// The pages file has 4,112 bytes for each page and each context, where each has 4,096.
pub fn pages_file_size()
    ensures { (entries : List Entry) (contexts : List Context)
        → AllByRecursion (λ entry. length entry.page ≡ 4096) entries
        → AllByRecursion (λ context. length context.page ≡ 4096) contexts
        → length (pages_file entries contexts) ≡ 4112 * (length entries + length contexts) }
{}
