//! What holds of all words, each law as the contract of a function that does nothing.
ghost use Rattle.std.specs.Prelude.{◌≡◌, ℕ, List, ◌↔◌, Some};
ghost use Rattle.igvm_words.specs.Words.{Job, job_of};
ghost use Rattle.further_words.specs.FurtherWords.{FurtherJob, further_of};
ghost use Rattle.further_words.specs.WordsOfFurther.{MeansFurther};

use igvm_words::words_of_a_job;

/// Words mean a further job exactly where they are the words of that job. So no words mean two further
/// jobs, and each further job that can be asked for has words of its own.
pub fn words_of_a_further_job()
    ensures { (words : List (List ℕ)) (job : FurtherJob)
        → (further_of words ≡ Some job) ↔ MeansFurther words job }
{
    // A law: nothing runs.
    words_of_a_job();
}

/// No words mean both a first job and a further one.
pub fn words_mean_one_job()
    ensures { (words : List (List ℕ)) (job : Job) (further : FurtherJob)
        → job_of words ≡ Some job → further_of words ≡ Some further → ⊥ }
{
    // A law: nothing runs.
    words_of_a_job();
}
