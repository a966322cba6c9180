//! That counts never fall, and that each answer shows its cause by one that rose. Each law is the contract of a
//! function that does nothing.

ghost use Rattle.std.specs.Prelude.{◌≡◌, ◌≤◌, ℕ, Err, Result, Some};
ghost use Rattle.dt_ports.specs.declared.book.Appended.{Appended};
ghost use Rattle.dt_ports.specs.declared.book.Appended.TheVariants.{Full, Kept};
ghost use Rattle.dt_ports.specs.declared.book.BookCounts.{BookCounts};
ghost use Rattle.dt_ports.specs.declared.count.Failed.{Failed};
ghost use Rattle.dt_ports.specs.declared.files.FileCounts.{FileCounts};
ghost use Rattle.dt_ports.specs.declared.files.FileFault.{FileFault};
ghost use Rattle.dt_ports.specs.declared.link.LinkCounts.{LinkCounts};
ghost use Rattle.dt_ports.specs.declared.link.RecvStep.{RecvStep};
ghost use Rattle.dt_ports.specs.declared.link.SendStep.{SendStep};
ghost use Rattle.dt_ports.specs.Book.{counts_after_append, NoBookCountFell};
ghost use Rattle.dt_ports.specs.Count.{faults_after, next_count, Rose};
ghost use Rattle.dt_ports.specs.Files.{counts_after_fault, counts_after_read, NoFileCountFell};
ghost use Rattle.dt_ports.specs.Link.{counts_after_receive, counts_after_send, NoLinkCountFell};
ghost use Rattle.spec_model.specs.declared.event.ClientEvent.{ClientEvent};
ghost use Rattle.spec_model.specs.declared.event.Verdict.TheVariants.{Inconclusive, Reject};

/// One more answer never lowers a count, and raises it unless it stood at its last value.
pub fn a_count_rises()
    ensures never_falls { (count : ℕ) → count ≤ next_count count }
    ensures rises { (count : ℕ) → Rose count (next_count count) }
{}

/// A count that rose in one of many calls, and fell in none, rose over all of them.
pub fn a_rise_lasts()
    ensures { (first before after last : ℕ) →
        first ≤ before → before ≤ after → after ≤ last → Rose before after → Rose first last }
{}

/// What a sink or a dialer counts shows why a call failed.
pub fn faults_show_causes()
    ensures never_falls { (answer : Result ℕ Failed) (faults : ℕ) → faults ≤ faults_after answer faults }
    ensures failed { (answer : Result ℕ Failed) (old new : ℕ) (failed : Failed) →
        answer ≡ Err failed → new ≡ faults_after answer old → Rose old new }
{}

/// What files keep shows how many reads there were, and why one failed or gave none of the bytes of a file that is too long.
pub fn files_show_causes()
    ensures never_fall { (limit : ℕ) (answer : Result ℕ FileFault) (counts : FileCounts) →
        NoFileCountFell counts (counts_after_read limit answer counts) }
    ensures reads { (limit : ℕ) (answer : Result ℕ FileFault) (counts : FileCounts) →
        Rose counts.reads (counts_after_read limit answer counts).reads }
    ensures failed { (limit : ℕ) (old new : FileCounts) → new ≡ counts_after_fault limit FileFault.Failed old →
        Rose old.faults new.faults × (new.last_failed ≡ Some limit) }
    ensures too_long { (limit : ℕ) (old new : FileCounts) → new ≡ counts_after_fault limit FileFault.TooLong old →
        Rose old.too_longs new.too_longs × (new.last_too_long ≡ Some limit) }
{}

/// What a link counts shows why no bytes moved.
pub fn links_show_causes()
    ensures sends { (step : SendStep) (counts : LinkCounts) → NoLinkCountFell counts (counts_after_send step counts) }
    ensures receives { (step : RecvStep) (counts : LinkCounts) →
        NoLinkCountFell counts (counts_after_receive step counts) }
    ensures send_failed { (old new : LinkCounts) → new ≡ counts_after_send SendStep.Failed old →
        Rose old.faults new.faults }
    ensures send_not_ready { (old new : LinkCounts) → new ≡ counts_after_send SendStep.NotReady old →
        Rose old.sends_not_ready new.sends_not_ready }
    ensures receive_failed { (old new : LinkCounts) → new ≡ counts_after_receive RecvStep.Failed old →
        Rose old.faults new.faults }
    ensures receive_not_ready { (old new : LinkCounts) → new ≡ counts_after_receive RecvStep.NotReady old →
        Rose old.receives_not_ready new.receives_not_ready }
    ensures end { (old new : LinkCounts) → new ≡ counts_after_receive RecvStep.End old → Rose old.ends new.ends }
{}

/// What a book counts shows that it was full, or that the exchange was rejected or could not be judged any further.
pub fn books_show_causes()
    ensures never_fall { (answer : Appended) (counts : BookCounts) →
        NoBookCountFell counts (counts_after_append answer counts) }
    ensures full { (event : ClientEvent) (old new : BookCounts) → new ≡ counts_after_append (Full event) old →
        Rose old.fulls new.fulls }
    ensures rejected { (place event fed : ℕ) (old new : BookCounts) →
        new ≡ counts_after_append (Kept place (Reject event) fed) old → Rose old.stops new.stops }
    ensures inconclusive { (place event fed : ℕ) (old new : BookCounts) →
        new ≡ counts_after_append (Kept place (Inconclusive event) fed) old →
        Rose old.stops new.stops }
{}
