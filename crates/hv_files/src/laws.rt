//! The definitions at a map with `/hello` and `/d/x`.
ghost use Rattle.std.specs.Prelude.{◌≡◌, Ok, Err, [], ◌∷◌, ◌++◌, codes};
ghost use Rattle.hv_files.specs.FileMap.{read_file, list_folder, made_folder, with_file, without, Folder, Holds};
ghost use Rattle.hv_files.specs.Example.{hello, d, d_x, files, entries};
ghost use Rattle.hv_files.specs.declared.refusal.FileRefusal.TheVariants as refusal;

/// The folders on the way are made.
pub fn files_are_loaded()
    ensures { files ≡ entries }
{}

/// What is read and listed.
pub fn files_are_listed()
    ensures file { read_file files d_x ≡ Ok [] }
    ensures folder { read_file files d ≡ Err refusal.IsDir }
    ensures missing { read_file files (codes "no" ∷ d) ≡ Err refusal.NoEntry }
    ensures middle { read_file files (codes "hello" ∷ d) ≡ Err refusal.NotDir }
    ensures root { list_folder files [] ≡ Ok (codes "d/" ∷ codes "hello" ∷ []) }
    ensures inner { list_folder files d ≡ Ok (codes "x" ∷ []) }
    ensures listed_file { list_folder files hello ≡ Err refusal.NotDir }
{}

/// What is made, written and removed.
pub fn files_change()
    ensures made { made_folder files (codes "e" ∷ []) ≡
        Ok ((d, Folder) ∷ (d_x, Holds []) ∷ (codes "e" ∷ [], Folder) ∷ (hello, Holds (codes "hi")) ∷ []) }
    ensures made_over { made_folder files hello ≡ Err refusal.Exists }
    ensures made_nowhere { made_folder files (codes "e" ∷ d) ≡ Err refusal.NoEntry }
    ensures written { with_file files hello [] ≡
        Ok ((d, Folder) ∷ (d_x, Holds []) ∷ (hello, Holds []) ∷ []) }
    ensures written_over { with_file files d [] ≡ Err refusal.IsDir }
    ensures removed { without files hello ≡ Ok ((d, Folder) ∷ (d_x, Holds []) ∷ []) }
    ensures full { without files d ≡ Err refusal.NotEmpty }
{}
