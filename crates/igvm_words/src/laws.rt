//! What holds of all words: a law, a function that does nothing.
ghost use Rattle.std.specs.Prelude.{◌≡◌, ℕ, List, ◌↔◌, Some};
ghost use Rattle.igvm_words.specs.Words.{Job, job_of};
ghost use Rattle.igvm_words.specs.WordsOfJob.{Means};

/// Words mean a job exactly where they are the words of that job. So no words mean two jobs, and each
/// job that can be asked for has words of its own.
pub fn words_of_a_job()
    ensures { (words : List (List ℕ)) (job : Job) → (job_of words ≡ Some job) ↔ Means words job }
{}
