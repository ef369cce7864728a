//! What holds of every load of a SEV or SEV-ES guest: each law is a function that does nothing.
ghost use Rattle.std.specs.Prelude.{◌≡◌, ℕ, List, is_some};
ghost use Rattle.std.specs.List.{AllByRecursion};
ghost use Rattle.igvm_image.specs.Headers.{PlacedHeader};
ghost use Rattle.launch_platform.specs.Machine.{started};
ghost use Rattle.image_loader.specs.Loads.{Load};
ghost use Rattle.image_loader.specs.PlacedPages.{PlacedPage, header_pages};
ghost use Rattle.image_loader.specs.LoadCommands.{commands, records_by};
ghost use Rattle.sev_chain.specs.SevBytes.{HasSevDigest, sev_bytes};
ghost use Rattle.sev_loader.specs.SevAsLaunch.{joined};
ghost use Rattle.sev_loader.specs.SevPlaced.{is_measured_page};

/// The bytes that the commands of a load measure, each page's from its own place in the machine, are those
/// that are hashed of the file alone.
pub fn commands_agree()
    ensures { (load : Load) → HasSevDigest load.platform.kind
        → joined (records_by (commands load) (started load.platform.kind))
        ≡ sev_bytes load.file load.platform }
{
    launch_platform::records_join();
}

/// A page that is placed is measured exactly where its header is a page without the unmeasured flag.
pub fn measured_pages()
    ensures { (load : Load) (area_page : ℕ → ℕ → List ℕ) (p : PlacedHeader)
        → HasSevDigest load.platform.kind
        → AllByRecursion (λ (q : PlacedPage). is_some q.tag ≡ is_measured_page p.header)
        (header_pages load area_page p) }
{}
